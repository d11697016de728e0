// The commands: which word is which, and what each does.
ghost use Rattle.std.specs.Prelude.{◌≡◌, cond, ◌&&◌, ◌≤◌, ◌%◌, ◌^◌, length, replicate};
ghost use Rattle.runs.specs.Runs.{bytes_of, part};
ghost use Rattle.ring.specs.Command.{command_of, size_of, fault_number, is_inside, lent, came, does};
ghost use Rattle.ring.specs.Leaves.{Stores, Lists, Appends};
ghost use Rattle.ring.specs.Ring.{words_from};

use crate::placed::Placed;

#[derive(Clone, Copy, PartialEq, Eq)]
pub enum Command {
    Plain,
    DlStart,
    Swap,
    ColdStart,
    MemSet,
    MemZero,
    MemCpy,
    Append,
    Unknown,
}

// A command that was taken: the list offset after it, and whether the run stops for a swap.
#[derive(Clone, Copy)]
pub struct Taken {
    pub offset: u32,
    pub swaps: bool,
}

impl Taken {
    pub fn number(self) -> u32
        ensures { result ≡ cond self.swaps 31 0 }
    {
        if self.swaps { 31 } else { 0 }
    }
}

// Why a command has no effect and sets the fault mark.
#[derive(Clone, Copy, PartialEq, Eq)]
pub enum Fault {
    Unknown,
    ListFull,
    BadRange,
}

impl Fault {
    #[tactic(auto, unfolding(crate::specs::Command::fault_number))]
    pub fn number(self) -> u32
        ensures { result ≡ fault_number self }
    {
        match self {
            Fault::Unknown => 32,
            Fault::ListFull => 34,
            Fault::BadRange => 35,
        }
    }
}

impl From<u32> for Command {
    ghost from_gives = { λ word command. command ≡ command_of word };

    #[tactic(auto, unfolding(crate::specs::Command::command_of))]
    fn from(word: u32) -> Command {
        if word >> 24 != 0xFF {
            return Command::Plain;
        }
        match word {
            0xFFFFFF00 => Command::DlStart,
            0xFFFFFF01 => Command::Swap,
            0xFFFFFF32 => Command::ColdStart,
            0xFFFFFF1B => Command::MemSet,
            0xFFFFFF1C => Command::MemZero,
            0xFFFFFF1D => Command::MemCpy,
            0xFFFFFF1E => Command::Append,
            _ => Command::Unknown,
        }
    }
}

impl Command {
    // How many words it takes, its parameters included.
    #[tactic(auto, unfolding(crate::specs::Command::size_of))]
    pub fn size(self) -> u32
        ensures words { result ≡ size_of self }
        ensures most { result ≤ 4 }
    {
        match self {
            Command::Plain => 1,
            Command::DlStart => 1,
            Command::Swap => 1,
            Command::ColdStart => 1,
            Command::MemSet => 4,
            Command::MemZero => 3,
            Command::MemCpy => 4,
            Command::Append => 3,
            Command::Unknown => 1,
        }
    }
}

// A sum of two numbers of 32 bits, which does not wrap in 64.
#[tactic(auto, unfolding(crate::specs::Command::is_inside))]
fn is_inside(at: u32, count: u32, memory: &[u8]) -> bool
    ensures { result ≡ is_inside at count memory.now }
{
    at as u64 + count as u64 <= memory.len() as u64
}

#[tactic(auto, unfolding(crate::specs::Command::stored, crate::specs::Command::is_inside))]
fn fill(memory: &mut [u8], at: u32, value: u32, count: u32) -> Result<(), Fault>
    ensures { Stores (is_inside at count memory.old) at (replicate count (value % 2 ^ 8)) memory.old result memory.new }
{
    if !is_inside(at, count, memory) {
        return Err(Fault::BadRange);
    }
    let start = at as usize;
    memory[start..start + count as usize].fill((value % 256) as u8);
    Ok(())
}

#[tactic(auto, unfolding(crate::specs::Command::stored, crate::specs::Command::is_inside))]
fn copy(memory: &mut [u8], target: u32, source: u32, count: u32) -> Result<(), Fault>
    ensures { Stores (is_inside target count memory.old && is_inside source count memory.old)
        target (part source count memory.old) memory.old result memory.new }
{
    if !(is_inside(target, count, memory) & is_inside(source, count, memory)) {
        return Err(Fault::BadRange);
    }
    let start = source as usize;
    memory.copy_within(start..start + count as usize, target as usize);
    Ok(())
}

// The list's next word. It answers the offset past it.
#[tactic(auto, unfolding(crate::specs::Command::listed, runs::specs::Runs::bytes_of))]
fn list_word(word: u32, offset: u32, list: &mut [u8; 8192]) -> Result<u32, Fault>
    requires { offset ≤ 8192 }
    ensures { Lists (bytes_of word) offset list.old result list.new }
{
    if 8192 < offset + 4 {
        return Err(Fault::ListFull);
    }
    runs::put_word(list, offset as usize, word);
    Ok(offset + 4)
}

// Bytes of the memory become the list's next. It answers the offset past them.
#[tactic(auto, unfolding(crate::specs::Command::appended, crate::specs::Command::is_inside))]
fn append(
    memory: &[u8],
    at: u32,
    count: u32,
    offset: u32,
    list: &mut [u8; 8192],
) -> Result<u32, Fault>
    requires { offset ≤ 8192 }
    ensures { Appends at count offset memory.now list.old result list.new }
{
    if !(is_inside(at, count, memory) & (count % 4 == 0)) {
        return Err(Fault::BadRange);
    }
    if 8192 - offset < count {
        return Err(Fault::ListFull);
    }
    let start = at as usize;
    let end = start + count as usize;
    let first = offset as usize;
    let past = first + count as usize;
    list[first..past].copy_from_slice(&memory[start..end]);
    Ok(offset + count)
}

// Obeys the command at the read mark.
#[tactic(auto, unfolding(crate::specs::Command::does, crate::specs::Command::size_of))]
pub fn obey(
    command: Command,
    ring: &[u8; 4096],
    at: Placed,
    list: &mut [u8; 8192],
    shown: &mut [u8; 8192],
    memory: &mut [u8],
) -> Result<Taken, Fault>
    ensures { does command (words_from ring.now at.marks.read (size_of command)) at.marks.offset
        (lent list.old shown.old memory.old) ≡ came result (lent list.new shown.new memory.new) }
{
    let mut offset = at.marks.offset;
    match command {
        Command::Plain => offset = list_word(at.word(ring, 0), offset, list)?,
        Command::DlStart => offset = 0,
        Command::Swap => shown.copy_from_slice(list),
        Command::ColdStart => {}
        Command::MemSet => fill(memory, at.word(ring, 1), at.word(ring, 2), at.word(ring, 3))?,
        Command::MemZero => fill(memory, at.word(ring, 1), 0, at.word(ring, 2))?,
        Command::MemCpy => copy(memory, at.word(ring, 1), at.word(ring, 2), at.word(ring, 3))?,
        Command::Append => offset = append(
            memory,
            at.word(ring, 1),
            at.word(ring, 2),
            offset,
            list,
        )?,
        Command::Unknown => return Err(Fault::Unknown),
    }
    Ok(Taken {
        offset,
        swaps: command == Command::Swap,
    })
}
