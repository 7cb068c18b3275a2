// The bytes of a slice in fixed memory, so that no line asks for any.
ghost use Rattle.std.specs.Prelude.{◌≡◌, ◌++◌, ◌∷◌, [], length, min, replicate, slice_set, take};
ghost use Rattle.calls.specs.Bytes.{held};

// No slice is longer.
pub const LONGEST: usize = 800;

// (`==` compares what stands behind too, which `repeated` leaves full of its byte: what two hold is compared by `as_slice`.)
#[derive(Clone, Copy, Debug, PartialEq, Eq)]
pub struct Bytes {
    pub(crate) list: [u8; LONGEST],
    pub(crate) length: usize,
}

impl Bytes {
    // So many of one byte, up to as many as there is room for.
    pub fn repeated(byte: u8, length: usize) -> Bytes
        ensures { held result ≡ replicate (min length 800) byte }
    {
        Bytes {
            list: [byte; LONGEST],
            length: length.min(LONGEST),
        }
    }

    pub fn as_slice(&self) -> &[u8]
        ensures { result.now ≡ held self.now }
    {
        &self.list[..self.length.min(LONGEST)]
    }

    pub fn len(&self) -> usize
        ensures { result ≡ length (held self.now) }
    {
        self.length.min(LONGEST)
    }

    // One more, which is dropped where there is no room for it.
    #[tactic(auto, using(crate::proofs::Pushed::pushed, crate::proofs::Pushed::not_pushed))]
    pub fn push(&mut self, byte: u8)
        ensures { held self.new ≡ take 800 (held self.old ++ byte ∷ []) }
    {
        if self.length < LONGEST {
            self.list[self.length] = byte;
            self.length += 1;
        }
    }

    // The bytes from a place on again and again, until they are so many or the room ends.
    pub(crate) fn go_round(&mut self, start: usize, count: usize) {
        let end = start.saturating_add(count).min(LONGEST);
        while start < self.length && self.length < end {
            let more = (self.length - start).min(end - self.length);
            self.list.copy_within(start..start + more, self.length);
            self.length += more;
        }
    }

    // Another byte at a place, where there is one.
    pub fn set(&mut self, place: usize, byte: u8)
        ensures { held self.new ≡ slice_set (held self.old) place byte }
    {
        if place < self.len() {
            self.list[place] = byte;
        }
    }
}
