// Which of two joined files holds a byte range, where in it, and that part of it.
pub mod inner;

// Which file holds a range of the joined file, where in that file, and how long it is.
#[derive(Clone, Copy)]
pub enum RangeAnswer {
    InIndex { start: usize, length: usize },
    InData { start: usize, length: usize },
    Refused(u8),
}
