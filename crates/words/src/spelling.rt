// A command as plain numbers: its own number, then those of its fields from the high bits down, a signed one as 32 bits
// in two's complement and 0 for a field that the command does not have.
#[derive(Clone, Copy)]
pub struct Spelling {
    pub command: u32,
    pub numbers: [u32; 5],
}
