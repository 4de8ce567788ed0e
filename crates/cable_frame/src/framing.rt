// One frame, written over a part of a slice.
ghost use Rattle.std.specs.Prelude.{◌≡◌, ◌+◌, ◌≤◌, length};
ghost use Rattle.lists.specs.Lists.{over};
ghost use Rattle.cable_crc.specs.Crc.{mask, divided, crc32};
ghost use Rattle.cable_frame.specs.Frame.{numbered, checked, frame, frame_size, frame_length};

use crate::lines::{put_body, put_check, put_number};

// The width of a number that the check is taken over.
const NUMBER: usize = 4;

// The characters of a frame that are always there: keys, line feeds, check.
const FIXED: usize = 32;

// A frame's number, and how many frames there are.
#[derive(Clone, Copy)]
pub struct Place {
    pub number: u32,
    pub count: u32,
}

impl Place {
    // The remainder of number and count, with which the frame's check begins.
    pub fn check_begun(self) -> u32
        ensures { result ≡ divided mask (numbered self.number self.count) }
    {
        let mut front = [0u8; 8];
        big_endian::write(&mut front, 0, NUMBER, self.number as u64);
        big_endian::write(&mut front, NUMBER, NUMBER, self.count as u64);
        cable_crc::run(cable_crc::begin(), &front)
    }

    // The frame's check, with its data.
    fn check_of(self, body: &[u8]) -> u32
        ensures { result ≡ crc32 (checked self.number self.count body.now) }
    {
        cable_crc::finish(cable_crc::run(self.check_begun(), body))
    }

    // How long the frame is with so many bytes of data.
    pub fn length_of(self, size: usize) -> usize
        requires { size ≤ frame_size }
        ensures { result ≡ frame_length self.number self.count size }
    {
        text::decimal::width(self.number) + text::decimal::width(self.count) + size * 2 + FIXED
    }

    // Writes the frame from `at` on, and tells where it ends.
    pub fn put_frame(self, out: &mut [u8], at: usize, body: &[u8]) -> usize
        requires { at + frame_length self.number self.count (length body.now) ≤ length out.old }
        ensures { (result ≡ at + frame_length self.number self.count (length body.now)) × (out.new ≡ over at (frame self.number self.count body.now) out.old) }
    {
        let check = self.check_of(body);
        let a = put_number(out, at, b"frame=", self.number);
        let b = put_number(out, a, b"of=", self.count);
        let c = put_body(out, b, body);
        put_check(out, c, check)
    }
}
