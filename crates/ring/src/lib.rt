// The coprocessor's command ring: the run over ring, RAM_DL, shown list and RAM_G, the host's words, and the reset.
// Each answers for every input.

#![tactic(auto)]

ghost use Rattle.std.specs.Prelude.{◌≡◌, ◌++◌, ◌≤◌, drop, length, MatchResult, true};
ghost use Rattle.ring.specs.Command.{lent};
ghost use Rattle.ring.specs.Host.{put, laid_around, Puts, reset as reset_to};
ghost use Rattle.ring.specs.Refusal.{refusal_number, told as tells, Refuses};
ghost use Rattle.ring.specs.Ring.{are_places, is_free};
ghost use Rattle.ring.specs.Run.{step as stepped, run as runs, ran, Tells};

mod command;
mod marks;
mod placed;
mod refusal;

use command::Command;
pub use marks::{Answer, Marks};
use placed::{Placed, around};
use refusal::Refusal;

fn stop(number: u32, marks: Marks) -> Answer
    ensures { result ≡ record { number = number; place = 0; count = 0; marks = marks } }
{
    Answer {
        number,
        place: 0,
        count: 0,
        marks,
    }
}

// One command: taken, or waiting for its parameters, or at fault.
fn step(
    ring: &[u8; 4096],
    list: &mut [u8; 8192],
    shown: &mut [u8; 8192],
    memory: &mut [u8],
    at: Placed,
) -> Answer
    ensures { Tells (stepped ring.now at.marks (lent list.old shown.old memory.old)) result
        list.new shown.new memory.new }
{
    let marks = at.marks;
    let command = Command::from(at.word(ring, 0));
    let size = 4 * command.size();
    if at.waiting() < size {
        return stop(30, marks);
    }
    match command::obey(command, ring, at, list, shown, memory) {
        Ok(taken) => Answer {
            number: taken.number(),
            place: 0,
            count: 1,
            marks: Marks {
                read: around(marks.read, size),
                offset: taken.offset,
                ..marks
            },
        },
        Err(fault) => Answer {
            number: fault.number(),
            place: marks.read,
            count: 0,
            marks: Marks { fault: 1, ..marks },
        },
    }
}

// Takes command after command until one stops the run or none waits. No count ends the loop: at most 4,092 bytes wait
// and each command takes 4 of them at least, so the 1,023 commands of the contract empty the ring (`stops`,
// specs/Flow.antt).
fn run_all(
    ring: &[u8; 4096],
    list: &mut [u8; 8192],
    shown: &mut [u8; 8192],
    memory: &mut [u8],
    at: Placed,
) -> Answer
    ensures { Tells (runs ring.now 1023 at.marks (lent list.old shown.old memory.old)) result
        list.new shown.new memory.new }
{
    let mut now = at.marks;
    let mut count: u32 = 0;
    while now.read != now.write {
        let done = step(ring, list, shown, memory, Placed { marks: now });
        count += done.count;
        if done.number != 0 {
            return Answer { count, ..done };
        }
        now = done.marks;
    }
    Answer {
        count,
        ..stop(0, now)
    }
}

// Marks that a call goes by. Run and host's words test them alike.
#[tactic(auto, unfolding(crate::specs::Ring::is_free, crate::specs::Ring::are_places))]
fn admit(marks: Marks) -> Result<Placed, Refusal>
    ensures { MatchResult result (λ at. (is_free marks ≡ true) × (at.marks ≡ marks))
        (λ refusal. Refuses marks refusal) }
{
    if !marks.are_places() {
        return Err(Refusal::BadMark);
    }
    if marks.fault != 0 {
        return Err(Refusal::Faulty);
    }
    Ok(Placed { marks })
}

// A call's answer. One that was refused changes nothing.
fn told(outcome: Result<Answer, Refusal>, marks: Marks) -> Answer
    ensures { result ≡ tells outcome marks }
{
    match outcome {
        Ok(answer) => answer,
        Err(refusal) => stop(refusal.number(), marks),
    }
}

fn try_run(
    ring: &[u8],
    list: &mut [u8],
    shown: &mut [u8],
    memory: &mut [u8],
    marks: Marks,
) -> Result<Answer, Refusal>
    ensures { Tells (ran ring.now marks (lent list.old shown.old memory.old)) (tells result marks)
        list.new shown.new memory.new }
{
    let Some(ring) = ring.as_array() else {
        return Err(Refusal::BadRun);
    };
    let Some(list) = list.as_mut_array() else {
        return Err(Refusal::BadRun);
    };
    let Some(shown) = shown.as_mut_array() else {
        return Err(Refusal::BadRun);
    };
    if 1048576 < memory.len() {
        return Err(Refusal::BadRun);
    }
    let at = admit(marks)?;
    Ok(run_all(ring, list, shown, memory, at))
}

pub fn run(
    ring: &[u8],
    list: &mut [u8],
    shown: &mut [u8],
    memory: &mut [u8],
    marks: Marks,
) -> Answer
    ensures { Tells (ran ring.now marks (lent list.old shown.old memory.old)) result list.new shown.new memory.new }
{
    told(try_run(ring, list, shown, memory, marks), marks)
}

// Copies all of a run to the front of another, which may be longer.
fn copy(src: &[u8], dst: &mut [u8])
    requires { length src.now ≤ length dst.old }
    ensures { dst.new ≡ src.now ++ drop (length src.now) dst.old }
{
    dst[..src.len()].copy_from_slice(src);
}

// Puts the bytes into the ring from a place on, and past its end from its start on.
fn lay_around(at: u32, words: &[u8], ring: &mut [u8; 4096])
    requires { (at ≤ 4092) × (length words.now ≤ 4092) }
    ensures { ring.new ≡ laid_around at words.now ring.old }
{
    let start = at as usize;
    let before_end = 4096 - start;
    if words.len() <= before_end {
        copy(words, &mut ring[start..]);
        return;
    }
    copy(&words[..before_end], &mut ring[start..]);
    copy(&words[before_end..], ring);
}

fn try_write(ring: &mut [u8], words: &[u8], marks: Marks) -> Result<Answer, Refusal>
    ensures { Puts (put ring.old words.now marks) (tells result marks) ring.new }
{
    let Some(ring) = ring.as_mut_array() else {
        return Err(Refusal::BadRun);
    };
    if words.len() % 4 != 0 {
        return Err(Refusal::BadRun);
    }
    let at = admit(marks)?;
    if ((4092 - at.waiting()) as usize) < words.len() {
        return Err(Refusal::NoRoom);
    }
    lay_around(marks.write, words, ring);
    Ok(stop(
        0,
        Marks {
            write: around(marks.write, words.len() as u32),
            ..marks
        },
    ))
}

// Puts the host's words into the ring, behind those that wait.
pub fn write(ring: &mut [u8], words: &[u8], marks: Marks) -> Answer
    ensures { Puts (put ring.old words.now marks) result ring.new }
{
    told(try_write(ring, words, marks), marks)
}

pub fn reset() -> Answer
    ensures { result ≡ reset_to }
{
    stop(
        0,
        Marks {
            read: 0,
            write: 0,
            offset: 0,
            fault: 0,
        },
    )
}
