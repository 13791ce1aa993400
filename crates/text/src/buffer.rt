// A text of at most 8192 bytes.
ghost use Rattle.std.specs.Prelude.{◌≡◌, ◌≤◌, length};

mod build;

// (an array and a length, and no `ArrayVec`: behind a vector there are no bytes that a wrong body could show;
// no model, since of one whose value is the list of the bytes a reference tells no bound)
#[derive(Drop)]
pub struct Text {
    bytes: [u8; 8192],
    len: usize,
    ghost whole: { length bytes ≡ 8192 },
    ghost few: { len ≤ 8192 },
}
