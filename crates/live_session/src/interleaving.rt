//! The answers of readers, in the order of the asks.

ghost use Rattle.std.specs.Prelude.{◌≡◌, ◌<◌, ◌≤◌, ◌+◌, ℕ, [], length, vec_len, vec_capacity};
ghost use Rattle.live_session.specs.Interleaving.{AreEveryFourth, HaveAnswersFor, answers_at};

use live_asks::{AskAnswer, AskAnswers};
use retrieval::found_asks::FoundAsk;
use std::alloc::Global;

/// The answers of readers in the order of the asks, of which each reader has every fourth. There's room for them.
pub(crate) fn in_order_of(
    alloc: Global,
    asks: &[FoundAsk],
    readers: Vec<AskAnswers>,
    room: Vec<AskAnswer>,
) -> AskAnswers
    requires few { vec_len readers ≤ 4 }
    requires room { (room.items ≡ []) × (length asks.now ≤ vec_capacity room) }
    ensures interleaved { HaveAnswersFor asks.now (answers_at 0 readers.items) (answers_at 1 readers.items)
        (answers_at 2 readers.items) (answers_at 3 readers.items)
        → AreEveryFourth result (answers_at 0 readers.items) (answers_at 1 readers.items) (answers_at 2 readers.items)
        (answers_at 3 readers.items) }
{
    let mut readers = readers;
    let fourth = taken(alloc, &mut readers, 3);
    let third = taken(alloc, &mut readers, 2);
    let second = taken(alloc, &mut readers, 1);
    let first = taken(alloc, &mut readers, 0);
    AskAnswers::from_vec(interleave(asks, first, second, third, fourth, room))
}

/// The answers of the last reader, where that is the one at a place, and else none.
fn taken(alloc: Global, readers: &mut Vec<AskAnswers>, place: usize) -> AskAnswers
    requires few { vec_len readers.old ≤ place + 1 }
    ensures taken { result ≡ answers_at place readers.old.items }
    ensures few { vec_len readers.new ≤ place }
    ensures left { (other : ℕ) → other < place →
        answers_at other readers.new.items ≡ answers_at other readers.old.items }
{
    if readers.len() <= place {
        return AskAnswers::new(alloc);
    }
    match readers.pop() {
        Some(answers) => answers,
        None => AskAnswers::new(alloc),
    }
}

/// One answer of each list in turn, for each ask.
fn interleave(
    asks: &[FoundAsk],
    first: AskAnswers,
    second: AskAnswers,
    third: AskAnswers,
    fourth: AskAnswers,
    room: Vec<AskAnswer>,
) -> Vec<AskAnswer>
    requires room { (room.items ≡ []) × (length asks.now ≤ vec_capacity room) }
    ensures interleaved { HaveAnswersFor asks.now first second third fourth
        → AreEveryFourth result.items first second third fourth }
{
    let mut answers = room;
    let mut next = first.into_vec().into_iter();
    let mut second = second.into_vec().into_iter();
    let mut third = third.into_vec().into_iter();
    let mut fourth = fourth.into_vec().into_iter();
    for _ in 0..asks.len() {
        let Some(answer) = next.next() else {
            return answers;
        };
        answers.push_reserved(answer);
        let after = next;
        next = second;
        second = third;
        third = fourth;
        fourth = after;
    }
    answers
}
