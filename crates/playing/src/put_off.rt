//! Lines that want of memory put off, and which line is made again.

ghost use Rattle.std.specs.Prelude.{◌≡◌, if◌then◌else◌};

/// Why a line of a script gave nothing: memory was refused to it.
#[derive(Clone, Copy)]
pub enum Unfollowed {
    /// Nothing was made of it, and it may be made again.
    PutOff,
    /// It was half followed.
    Halfway,
}

/// Which line is made where this one is reached: the one before, if that was put off.
pub fn line_to_make(put_off: bool, made: usize, at: usize) -> usize
    ensures { result ≡ (if put_off then made else at) }
{
    if put_off { made } else { at }
}
