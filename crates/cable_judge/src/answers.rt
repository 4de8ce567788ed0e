// What is told of a frame that was not taken.
ghost use Rattle.std.specs.Prelude.{◌≡◌};
ghost use Rattle.cable_judge.specs.Number.{no_frame_number};

// Why no frame was accepted: the output is too short for it; a stretch that is not the awaited frame ended; none ended yet; the head is too short.
#[derive(Clone, Copy)]
pub enum NoFrame {
    OutputShort,
    NotAwaited,
    Unended,
    HeadShort,
}

// Its number (docs/RULES.md, 13.6).
impl From<NoFrame> for u64 {
    ghost from_gives = { λ why n. n ≡ no_frame_number why };

    fn from(why: NoFrame) -> u64 {
        match why {
            NoFrame::OutputShort => 10,
            NoFrame::NotAwaited => 17,
            NoFrame::Unended => 18,
            NoFrame::HeadShort => 13,
        }
    }
}
