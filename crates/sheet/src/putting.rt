// Bytes that are written into an output which has room for them.
ghost use Rattle.std.specs.Prelude.{◌+◌, ◌≤◌, length};
ghost use Rattle.sheet.specs.Put.{Put};

// An output, and the place reached in it. The output is lent: no heap is used.
#[derive(Drop)]
pub struct Output<'a> {
    pub out: &'a mut [u8],
    pub at: usize,
}

impl<'a> Output<'a> {
    // These bytes, and the place after them.
    pub fn put(&mut self, bytes: &[u8])
        requires { self.old.at + length bytes.now ≤ length self.old.out.now }
        ensures { Put self.old bytes.now self.new }
    {
        let end = self.at + bytes.len();
        self.out[self.at..end].copy_from_slice(bytes);
        self.at = end;
    }
}
