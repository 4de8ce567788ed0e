// What a feed tells: its answer, and how far it came.
use cable_judge::answers::NoFrame;

// The answer, which is how many bytes an accepted frame has, and how many bytes were taken.
#[derive(Clone, Copy)]
pub struct Fed {
    pub answer: Result<usize, NoFrame>,
    pub taken: usize,
}
