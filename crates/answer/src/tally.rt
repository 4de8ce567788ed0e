// What a session holds, as a value that is handed back changed.
ghost use Rattle.std.specs.Prelude.{◌≡◌, ◌+◌, ◌≤◌, ◌<◌, ◌^◌};
ghost use Rattle.answer.specs.Number.{no_tally};
ghost use Rattle.answer.specs.Tally.{opened, grown, added, released};

#[derive(Clone, Copy)]
pub struct Tally {
    pub bytes: usize,
    pub links: usize,
    pub objects: usize,
    pub depth: usize,
}

impl Tally {
    pub fn none() -> Self
        ensures { result ≡ no_tally }
    {
        Tally {
            bytes: 0,
            links: 0,
            objects: 0,
            depth: 0,
        }
    }

    // One more open object, of no bytes.
    pub fn open(self) -> Self
        requires { self.depth + 1 < 2 ^ 64 }
        ensures { result ≡ opened self }
    {
        Tally {
            depth: self.depth + 1,
            ..self
        }
    }

    // The innermost open object has some bytes and links more.
    pub fn grow(self, bytes: usize, links: usize) -> Self
        requires { (self.bytes + bytes < 2 ^ 64) × (self.links + links < 2 ^ 64) }
        ensures { result ≡ grown bytes links self }
    {
        Tally {
            bytes: self.bytes + bytes,
            links: self.links + links,
            ..self
        }
    }

    // The innermost open object is added to the closed ones.
    pub fn add(self) -> Self
        requires { (self.objects + 1 < 2 ^ 64) × (0 < self.depth) }
        ensures { result ≡ added self }
    {
        Tally {
            objects: self.objects + 1,
            depth: self.depth - 1,
            ..self
        }
    }

    // The innermost open object is dropped, or closed as a duplicate, and gives back its bytes and links: nothing is held twice.
    pub fn release(self, bytes: usize, links: usize) -> Self
        requires { (bytes ≤ self.bytes) × (links ≤ self.links) × (0 < self.depth) }
        ensures { result ≡ released bytes links self }
    {
        Tally {
            bytes: self.bytes - bytes,
            links: self.links - links,
            depth: self.depth - 1,
            ..self
        }
    }
}
