// A table or a buffer of an example: an array, and how much of it is in use, which is what is lent to the machine.

// What stands in a buffer before a call, so that a byte that should have stayed and did not is seen.
const FILLER: u8 = 0xEE;

#[derive(Clone, Copy, PartialEq, Eq)]
pub struct Buffer<const N: usize> {
    pub bytes: [u8; N],
    pub len: usize,
}

impl<const N: usize> Buffer<N> {
    pub fn new() -> Buffer<N> {
        Buffer::lending(0)
    }

    // For tables and memory: what an example lends of them beyond what it put in is zero.
    pub fn zeros() -> Buffer<N> {
        Buffer {
            bytes: [0; N],
            len: 0,
        }
    }

    pub fn lending(len: usize) -> Buffer<N> {
        Buffer {
            bytes: [FILLER; N],
            len,
        }
    }

    pub fn lent(&self) -> &[u8] {
        &self.bytes[..self.len.min(N)]
    }

    pub fn lent_mut(&mut self) -> &mut [u8] {
        let n = self.len.min(N);
        &mut self.bytes[..n]
    }

    // Bytes that find no room are not written, so that no function here asks anything of its caller.
    pub fn put(&mut self, at: usize, bytes: &[u8]) {
        if let Some(end) = at.checked_add(bytes.len())
            && let Some(place) = self.bytes.get_mut(at..end)
        {
            place.copy_from_slice(bytes);
        }
    }

    pub fn push(&mut self, bytes: &[u8]) {
        self.put(self.len, bytes);
        self.len = self.len.saturating_add(bytes.len());
    }
}
