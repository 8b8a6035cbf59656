// Total ways to reach a word of a slice that is lent: a read past the end gives 0, and a store past the end changes nothing.
pub use reference_words::words::{copy, get, put, put_words};

// The words from `from` to before `end` become 0.
pub fn clear(w: &mut [u32], from: usize, end: usize) {
    for at in from..end {
        put(w, at, 0);
    }
}
