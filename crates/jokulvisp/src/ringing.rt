// jv_ring_run, jv_ring_write and jv_ring_reset: the command ring, its marks as plain numbers.
ghost use Rattle.std.specs.Prelude.{◌≡◌};
ghost use Rattle.jokulvisp.specs.Ring.{spread, RingRunAnswer, RingWriteAnswer, RingResetAnswer};

use ring::{Answer, Marks};

#[repr(C)]
#[derive(Clone, Copy)]
pub struct JvRing {
    pub number: u32,
    pub place: u32,
    pub count: u32,
    pub reported: u32,
    pub read: u32,
    pub write: u32,
    pub offset: u32,
    pub fault: u32,
}

fn tell(answer: Answer) -> JvRing
    ensures { result ≡ spread answer }
{
    let marks = answer.marks;
    JvRing {
        number: answer.number,
        place: answer.place,
        count: answer.count,
        reported: marks.reported(),
        read: marks.read,
        write: marks.write,
        offset: marks.offset,
        fault: marks.fault,
    }
}

pub fn jv_ring_run(
    ring: &[u8],
    list: &mut [u8],
    shown: &mut [u8],
    memory: &mut [u8],
    read: u32,
    write: u32,
    offset: u32,
    fault: u32,
) -> JvRing
    ensures { RingRunAnswer ring.now list.old shown.old memory.old
        (record { read = read; write = write; offset = offset; fault = fault }) result
        list.new shown.new memory.new }
{
    let marks = Marks {
        read,
        write,
        offset,
        fault,
    };
    tell(ring::run(ring, list, shown, memory, marks))
}

pub fn jv_ring_write(
    ring: &mut [u8],
    words: &[u8],
    read: u32,
    write: u32,
    offset: u32,
    fault: u32,
) -> JvRing
    ensures { RingWriteAnswer ring.old words.now
        (record { read = read; write = write; offset = offset; fault = fault }) result
        ring.new }
{
    let marks = Marks {
        read,
        write,
        offset,
        fault,
    };
    tell(ring::write(ring, words, marks))
}

#[tactic(auto, unfolding(crate::specs::Ring::RingResetAnswer))]
pub fn jv_ring_reset() -> JvRing
    ensures { RingResetAnswer result }
{
    tell(ring::reset())
}
