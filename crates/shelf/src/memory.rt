// A shelf over a client's buffer.
ghost use Rattle.std.specs.Prelude.{◌≡◌, ◌≤◌, ◌++◌, length, take, drop};

// It holds the first `count` bytes of its buffer, and starts with none, under stamp 0. The buffer is the client's, so how much of it
// is in use is kept beside it.
#[derive(Drop)]
pub struct MemoryShelf<'a> {
    pub(crate) buffer: &'a mut [u8],
    pub(crate) count: usize,
    pub(crate) stamp: u32,
    ghost fits: { count ≤ length buffer.now },
}

impl<'a> MemoryShelf<'a> {
    // The bytes at the front of the buffer that are in use.
    pub(crate) fn front(&self) -> &[u8]
        ensures { result.now ≡ take self.now.count self.now.buffer.now }
    {
        &self.buffer[..self.count]
    }

    // Holds the bytes given, at the front of its buffer, under `stamp`.
    pub(crate) fn hold(&mut self, given: &[u8], stamp: u32)
        requires { length given.now ≤ length self.old.buffer.now }
        ensures buffer { self.new.buffer.now ≡ given.now ++ drop (length given.now) self.old.buffer.now }
        ensures count { self.new.count ≡ length given.now }
        ensures stamp { self.new.stamp ≡ stamp }
        ensures lent { self.new.buffer.ghost_name ≡ self.old.buffer.ghost_name }
    {
        let count = given.len();
        self.buffer[..count].copy_from_slice(given);
        self.count = count;
        self.stamp = stamp;
    }
}
