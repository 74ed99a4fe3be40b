// The room that a drawer is put together in.
ghost use Rattle.std.specs.Prelude.{◌≤◌};

// More bytes than a drawer may have, of which the first are used.
#[derive(Drop)]
pub struct Drawer {
    space: [u8; 65600],
    used: usize,
    ghost within: { used ≤ 65600 },
}

impl Drawer {
    pub fn new() -> Drawer {
        Drawer {
            space: [0; 65600],
            used: 0,
        }
    }

    pub fn bytes(&self) -> &[u8] {
        &self.space[..self.used]
    }

    pub fn clear(&mut self) {
        self.used = 0;
    }

    // These bytes behind those used; what has no room is left out.
    pub fn put(&mut self, bytes: &[u8]) {
        let room = &mut self.space[self.used..];
        let size = room.len().min(bytes.len());
        room[..size].copy_from_slice(&bytes[..size]);
        self.used += size;
    }
}
