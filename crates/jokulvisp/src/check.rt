// jv_check, and the limits and the answer that it shares with the other calls on lists.
ghost use Rattle.std.specs.Prelude.{◌≡◌, length};
ghost use Rattle.jokulvisp.specs.Check.{Admits, ended, is_frame, is_list, is_memory, is_limit, refusal_number, refused_for, answer_of, CheckAnswer};

use engine::{Ending, Screen};
use units::{TALLEST, WIDEST};

// Document 01, 'The first build'.
const LONGEST_LIST: usize = 8192;

const LARGEST_MEMORY: usize = 1048576;

const MOST_STEPS: u32 = 65536;

// As include/jokulvisp.h has it: `number` is one of document 01's table.
#[repr(C)]
#[derive(Clone, Copy)]
pub struct JvAnswer {
    pub number: u32,
    pub list: u32,
    pub place: u32,
    pub count: u32,
}

// Why a call refuses its arguments. `Frame`: the frame is out of its limits, or the rows that are to be painted are not the
// frame's, or the runs lent for them have other lengths.
#[derive(Clone, Copy, PartialEq, Eq)]
pub enum Refusal {
    Frame,
    List,
    Memory,
    Limit,
}

impl Refusal {
    // Its number in document 01's table.
    fn number(self) -> u32
        ensures { result ≡ refusal_number self }
    {
        match self {
            Refusal::Frame => 1,
            Refusal::List => 2,
            Refusal::Memory => 3,
            Refusal::Limit => 4,
        }
    }
}

impl JvAnswer {
    // A refusal, and which list it is about.
    pub fn refused(list: u32, why: Refusal) -> JvAnswer
        ensures { result ≡ refused_for list (refusal_number why) }
    {
        JvAnswer {
            number: why.number(),
            list,
            place: 0,
            count: 0,
        }
    }

    // How the run of a list ended, and which list it was.
    pub fn ended(list: u32, ending: Ending) -> JvAnswer
        ensures { result ≡ ended list ending }
    {
        JvAnswer {
            number: ending.number(),
            list,
            place: ending.place(),
            count: ending.count,
        }
    }
}

#[tactic(auto, unfolding(crate::specs::Check::is_frame))]
pub fn is_frame(width: u32, height: u32) -> bool
    ensures { result ≡ is_frame width height }
{
    1 <= width && width <= WIDEST && (1 <= height && height <= TALLEST)
}

#[tactic(auto, unfolding(crate::specs::Check::is_list))]
pub fn is_list(length: usize) -> bool
    ensures { result ≡ is_list length }
{
    4 <= length && length <= LONGEST_LIST && length % 4 == 0
}

#[tactic(auto, unfolding(crate::specs::Check::is_memory))]
pub fn is_memory(length: usize) -> bool
    ensures { result ≡ is_memory length }
{
    length <= LARGEST_MEMORY
}

#[tactic(auto, unfolding(crate::specs::Check::is_limit))]
pub fn is_limit(limit: u32) -> bool
    ensures { result ≡ is_limit limit }
{
    1 <= limit && limit <= MOST_STEPS
}

// The first limit that is broken. `lent`: the rows that are to be painted are the frame's, and the runs lent for them have
// their lengths.
#[tactic(auto, unfolding(crate::specs::Check::refusal_of))]
fn admit(
    list: usize,
    memory: usize,
    width: u32,
    height: u32,
    limit: u32,
    lent: bool,
) -> Result<(), Refusal>
    ensures { Admits list memory width height limit lent result }
{
    if !(is_frame(width, height) && lent) {
        return Err(Refusal::Frame);
    }
    if !is_list(list) {
        return Err(Refusal::List);
    }
    if !is_memory(memory) {
        return Err(Refusal::Memory);
    }
    if !is_limit(limit) {
        return Err(Refusal::Limit);
    }
    Ok(())
}

#[tactic(auto, unfolding(crate::specs::Check::answer_of))]
pub fn answer(
    list: &[u8],
    memory: &[u8],
    width: u32,
    height: u32,
    limit: u32,
    lent: bool,
) -> JvAnswer
    ensures { result ≡ answer_of list.now (length memory.now) width height limit lent }
{
    match admit(list.len(), memory.len(), width, height, limit, lent) {
        Ok(()) => {
            let screen = Screen {
                list,
                memory,
                limit,
            };
            JvAnswer::ended(0, screen.finish())
        }
        Err(why) => JvAnswer::refused(0, why),
    }
}

#[tactic(auto, unfolding(crate::specs::Check::CheckAnswer))]
pub fn jv_check(list: &[u8], memory: &[u8], width: u32, height: u32, limit: u32) -> JvAnswer
    ensures { CheckAnswer list.now (length memory.now) width height limit result }
{
    answer(list, memory, width, height, limit, true)
}
