// An id that stands twice, by passes over ranges of values.
pub mod inner;
