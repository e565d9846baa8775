// The table: what lies in its slot, what a seat knows, and its rule.
// Word 0 is the next ticket, word 1 the ticket that is served, which is how many turns the line has, and word 2 how many passes were made.
use crate::line::{Left, Turn};
use crate::subject::Subject;
use atomic_table::{Seat, Shared, Table, TableRule};
use std::alloc::Global;
use std::collections::LinkedList;
use std::marker::PhantomData;
use std::snapshot::Snapshot;

/// What the one slot holds: the value, with what the last turn left, or nothing while a pass has it.
#[derive(Drop)]
pub enum Place<T, I> {
    Home(T, Option<Left<I>>),
    Out,
}

/// What is told when the table is made.
#[derive(Drop)]
pub struct Opening<T> {
    pub first: Snapshot<T>,
    pub passes: u64,
}

/// What a seat knows. No value of it is made.
pub struct View<T, I> {
    pub about: Option<Opening<T>>,
    /// The number of its pass.
    pub number: u64,
    /// How many passes it stands for: itself, and those that it met.
    pub tally: u64,
    /// The line as far as it was seen.
    pub seen: LinkedList<Turn<I>>,
    /// Tickets that it may still take.
    pub may: u64,
    /// 0 with no ticket, 1 with a ticket, 2 with the turn.
    pub stage: u64,
    pub ticket: u64,
    /// 0, or 1 more than the lease that it has.
    pub lease: u64,
    /// 1 while it holds a number for a new seat.
    pub held: u64,
    pub next: u64,
    /// 1 while its count of a pass is refused and not undone.
    pub refused: u64,
    /// 1 once it found that no other pass is out, until it counts one.
    pub alone: u64,
    /// The shorter line at the last meeting.
    pub met: LinkedList<Turn<I>>,
    /// The words that its looks found last.
    pub ticket_word: u64,
    pub passes_word: u64,
}

pub struct Rule<T, I> {
    of: PhantomData<(T, I)>,
}

impl<T: Subject<I>, I> TableRule<Place<T, I>, View<T, I>, Opening<T>> for Rule<T, I> {
    ghost use Rattle.ebs_turns.specs.Rule.{Kept, first_seat};

    ghost holds = { λ key. Kept T.follows key };

    ghost first = { first_seat };
}

pub(crate) type Board<T, I> = Table<Place<T, I>, View<T, I>, Opening<T>, Rule<T, I>, Global>;

pub(crate) type Top<T, I> = Shared<Place<T, I>, View<T, I>, Opening<T>, Rule<T, I>>;

pub(crate) type Chair<T, I> = Seat<Place<T, I>, View<T, I>>;
