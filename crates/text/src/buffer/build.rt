// What is put at the end of a text; what does not fit is cut off.
// `joins` says the same as `says` to a caller that puts several pieces one after another.
// (no `fmt::Write`: as far as its contract says, `write!` may answer Err, and these calls cannot fail)
ghost use Rattle.std.specs.Prelude.{◌≡◌, ◌≤◌, [], ◌++◌, length, decimal};
ghost use Rattle.text.specs.Clipped.{clipped, Joins};
ghost use Rattle.text.specs.Said.{said};

use super::Text;
use itoa::Buffer;

impl Text {
    pub fn new() -> Text
        ensures { said result ≡ [] }
    {
        Text {
            bytes: [0; 8192],
            len: 0,
        }
    }

    pub fn as_bytes(&self) -> &[u8]
        ensures says { result.now ≡ said self.now }
        ensures fits { length result.now ≤ 8192 }
    {
        &self.bytes[0..self.len]
    }

    // As much of the part as there is room for.
    pub fn put(&mut self, part: &[u8])
        ensures says { said self.new ≡ clipped (said self.old ++ part.now) }
        ensures joins { Joins (said self.old) (λ a. a ++ part.now) (said self.new) }
    {
        let n = part.len().min(8192 - self.len);
        let end = self.len + n;
        self.bytes[self.len..end].copy_from_slice(&part[0..n]);
        self.len = end;
    }

    // The number in decimal.
    pub fn number(&mut self, n: u64)
        ensures says { said self.new ≡ clipped (said self.old ++ decimal n) }
        ensures joins { Joins (said self.old) (λ a. a ++ decimal n) (said self.new) }
    {
        let mut buffer = Buffer::new();
        let digits = buffer.format(n).as_bytes();
        // (one by one, so that an edit can plant a wrong digit)
        for digit in digits {
            self.put(&[*digit]);
        }
    }

    // A label, and then a number in decimal.
    // (inlined, so that a label that is a constant is copied as one, and C programs need no `memmove`)
    #[inline(always)]
    pub fn labelled(&mut self, label: &[u8], n: u64)
        ensures says { said self.new ≡ clipped (said self.old ++ (label.now ++ decimal n)) }
        ensures joins { Joins (said self.old) (λ a. a ++ label.now ++ decimal n) (said self.new) }
    {
        self.put(label);
        self.number(n);
    }
}
