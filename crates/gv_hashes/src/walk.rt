//! The turns of a hash.

ghost use Rattle.std.specs.Prelude.{◌≡◌, ◌+◌, ◌-◌, ◌^◌, min, IfOk, IfSome};
ghost use Rattle.gv_hashes.specs.Hashes as spec;
ghost use Rattle.gv_hashes.specs.Laws.{unasked_hash};
ghost use Rattle.gv_hashes.specs.declared.walk.HashTurn.TheVariants.{Is};

use crate::joins::{join_element, join_entry};
use crate::opened::put_opened;
use crate::step::{Hashed, Step, answer_step, hash_value, id_of, text_step, value_step};
use crate::todo::{Stage, Todo};
use gv_base::{Names, OutOfMemory, Value};
use gv_classes::Classes;
use gv_code::Stack;
use gv_heap::Heap;
use gv_texts::{Question, resume_text};
use std::alloc::Global;

/// What a walk comes to.
#[derive(Debug, Drop)]
pub enum HashTurn {
    /// The hash.
    Is(i32),
    /// What an instance answered; it is no Integer.
    NoInteger(Value),
    /// A value is asked.
    Asks {
        walk: HashWalk,
        receiver: Value,
        question: Question,
    },
}

/// A walk that has asked.
#[derive(Debug, Drop)]
pub struct HashWalk {
    pub stage: Stage,
    /// What is still to do.
    pub todo: Stack<Todo>,
    /// The hashes so far, each of a value around the next one.
    pub hashes: Stack<i32>,
    /// How many values around are entered, with the one that it asks to enter.
    pub inside: usize,
}

impl HashWalk {
    /// How many values that lie in others the walk is in; what can't be counted is the greatest number.
    pub fn inside(&self) -> usize
        ensures { result ≡ min (self.now.inside + spec.stage_inside self.now.stage) (2 ^ 64 - 1) }
    {
        self.inside.saturating_add(self.stage.inside())
    }
}

/// The first turn of the hash of a value.
pub fn start_hash(
    alloc: Global,
    names: &Names,
    classes: &Classes,
    heap: &Heap,
    value: Value,
) -> Result<HashTurn, OutOfMemory>
    ensures turn { IfOk result (λ turn. turn ≡ spec.started names.now classes.now heap.now value) }
    ensures unasked { IfOk result (λ turn. IfSome (unasked_hash names.now classes.now heap.now value) (λ hash. turn ≡ Is hash)) }
{
    let hashed = hash_value(names, classes, heap, value);
    root_turn(alloc, names, classes, heap, value, hashed)
}

/// The first turn of a value that is hashed so.
fn root_turn(
    alloc: Global,
    names: &Names,
    classes: &Classes,
    heap: &Heap,
    value: Value,
    hashed: Hashed,
) -> Result<HashTurn, OutOfMemory>
    ensures { IfOk result (λ turn. turn ≡ spec.root_turn names.now classes.now heap.now value hashed) }
{
    let mut todo = Stack::new(alloc);
    let hashes = Stack::new(alloc);
    match hashed {
        Hashed::Opens => {
            put_opened(heap, id_of(value), &mut todo)?;
            until_asked(alloc, names, classes, heap, todo, hashes, 0)
        }
        hashed => {
            let step = value_step(alloc, names, classes, heap, false, value, hashed)?;
            go_on(alloc, names, classes, heap, step, todo, hashes, 0)
        }
    }
}

/// The turn behind the answer to a question.
pub fn resume_hash(
    alloc: Global,
    names: &Names,
    classes: &Classes,
    heap: &Heap,
    walk: HashWalk,
    answer: Value,
) -> Result<HashTurn, OutOfMemory>
    ensures { IfOk result (λ turn. turn ≡ spec.resumed names.now classes.now heap.now walk answer) }
{
    let HashWalk {
        stage,
        mut todo,
        hashes,
        inside,
    } = walk;
    let step = match stage {
        Stage::Answer => answer_step(answer),
        Stage::Text(walk) => text_step(resume_text(alloc, names, classes, heap, walk, answer)?),
        Stage::Entry(id) => {
            todo.push(Todo::Leave)?;
            put_opened(heap, id, &mut todo)?;
            return until_asked(alloc, names, classes, heap, todo, hashes, inside);
        }
    };
    go_on(alloc, names, classes, heap, step, todo, hashes, inside)
}

/// Hashes things up to the next question.
fn until_asked(
    alloc: Global,
    names: &Names,
    classes: &Classes,
    heap: &Heap,
    todo: Stack<Todo>,
    hashes: Stack<i32>,
    inside: usize,
) -> Result<HashTurn, OutOfMemory>
    ensures { IfOk result (λ turn. turn ≡ spec.until_asked names.now classes.now heap.now todo hashes inside) }
{
    let mut todo = todo;
    let mut hashes = hashes;
    let mut inside = inside;
    while let Some(next) = todo.pop() {
        match next {
            Todo::Start(hash) => hashes.push(hash)?,
            Todo::Element => join_element(&mut hashes)?,
            Todo::Entry => join_entry(&mut hashes)?,
            Todo::Leave => inside = inside.saturating_sub(1),
            Todo::Inner(value) => {
                let hashed = hash_value(names, classes, heap, value);
                match value_step(alloc, names, classes, heap, true, value, hashed)? {
                    Step::Is(hash) => hashes.push(hash)?,
                    Step::NoInteger(answer) => return Ok(HashTurn::NoInteger(answer)),
                    Step::Waits {
                        stage,
                        receiver,
                        question,
                    } => return asks(stage, todo, hashes, inside, receiver, question),
                }
            }
        }
    }
    Ok(HashTurn::Is(hashes.pop().unwrap_or(0)))
}

/// Goes on behind the step of a value.
fn go_on(
    alloc: Global,
    names: &Names,
    classes: &Classes,
    heap: &Heap,
    step: Step,
    todo: Stack<Todo>,
    hashes: Stack<i32>,
    inside: usize,
) -> Result<HashTurn, OutOfMemory>
    ensures { IfOk result (λ turn. turn ≡ spec.stepped step todo (spec.until_asked names.now classes.now heap.now todo) hashes inside) }
{
    match step {
        Step::Is(hash) => {
            let mut hashes = hashes;
            hashes.push(hash)?;
            until_asked(alloc, names, classes, heap, todo, hashes, inside)
        }
        Step::NoInteger(answer) => Ok(HashTurn::NoInteger(answer)),
        Step::Waits {
            stage,
            receiver,
            question,
        } => asks(stage, todo, hashes, inside, receiver, question),
    }
}

/// A walk that has asked.
fn asks(
    stage: Stage,
    todo: Stack<Todo>,
    hashes: Stack<i32>,
    inside: usize,
    receiver: Value,
    question: Question,
) -> Result<HashTurn, OutOfMemory>
    ensures { IfOk result (λ turn. turn ≡ spec.asking stage todo hashes inside receiver question) }
{
    let inside = match stage {
        Stage::Entry(_) => inside.checked_add(1).ok_or(OutOfMemory)?,
        _ => inside,
    };
    Ok(HashTurn::Asks {
        walk: HashWalk {
            stage,
            todo,
            hashes,
            inside,
        },
        receiver,
        question,
    })
}
