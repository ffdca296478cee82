// One move of a chunk, that which its turn calls for; and the moves of a run. The words, the matrix and the lent area come as the public calls
// have them from C, and go on to a `Turn` at each move; a struct of them on the way there would be made for three calls in a row.
ghost use Rattle.std.specs.Prelude.{◌≡◌, ◌+◌, ◌-◌, ◌≤◌, ◌<◌, eqb, length, get_or};
ghost use Rattle.moving.specs.OneMove.{Movable};
ghost use Rattle.moving.specs.RunMoves.{Runnable, RanWords};
ghost use Rattle.moving.specs.Moved.{Moved, uncounted, Possible, status_of};
ghost use Rattle.moving.specs.Settled.{settled, Holding, Topped};

use crate::chunk::Chunk;
use crate::stack::Stack;
use crate::turn::Turn;
use crate::{chunk, moves};
use moving::{Hand, Move, Stuck};

// The status of a chunk that is stuck so.
fn status_word(why: Stuck) -> u16
    ensures { result ≡ status_of why }
{
    why as u16
}

// This move of chunk c, not yet counted; what is at hand after it.
fn moved(area: &mut [u16], c: usize, mut hand: Hand, next: Move) -> Hand
    requires { Possible (settled area.old c hand) c next × Holding area.old c hand × Topped area.old hand }
    ensures result_after { (settled area.new c result ≡ uncounted (settled area.old c hand) c next) × Holding area.new c result × (result.moves ≡ hand.moves) }
    ensures topped { Topped area.new result }
{
    match next {
        Move::Push(marked) => moves::push(area, c, hand, marked),
        Move::Stick(why) => {
            hand.status = status_word(why);
            hand
        }
        Move::Accept => moves::accept(area, c, hand),
        Move::Reduce { from, symbol, rule } => moves::reduce(area, c, hand, from, symbol, rule),
    }
}

// One move of chunk c, a live one that is not at rest; what is at hand after it.
fn make_move(words: &[u16], matrix: &[u8], area: &mut [u16], c: usize, hand: Hand) -> Hand
    requires { Movable words.now matrix.now (settled area.old c hand) c × Holding area.old c hand × Topped area.old hand }
    ensures moved { Moved words.now matrix.now (settled area.old c hand) c (settled area.new c result) }
    ensures holding { Holding area.new c result × (result.moves ≡ hand.moves + 1) × Topped area.new result }
{
    let turn = Turn {
        words,
        matrix,
        area,
        c,
        hand,
    };
    let next = turn.next_move();
    let mut after = moved(area, c, hand, next);
    after.moves += 1;
    after
}

// Moves of chunk c, a live one, until so many are made or it rests; what is at hand then, with the moves made counted.
fn moves_until(
    words: &[u16],
    matrix: &[u8],
    area: &mut [u16],
    c: usize,
    mut hand: Hand,
    budget: u32,
) -> Hand
    requires { Runnable words.now matrix.now (settled area.old c hand) c × Holding area.old c hand }
    ensures ran_words { RanWords words.now matrix.now (settled area.old c hand) c budget (result.moves - hand.moves) (settled area.new c result) }
    ensures holding { Holding area.new c result × (hand.moves ≤ result.moves) }
{
    hand.top = moves::top_word(Stack::new(area, hand, hand.head).top_terminal());
    for _ in 0..budget {
        if chunk::resting(hand) {
            return hand;
        }
        hand = make_move(words, matrix, area, c, hand);
    }
    hand
}

// Moves of chunk c, a live one, until so many are made or it rests; how many were made.
pub(crate) fn make_moves(
    words: &[u16],
    matrix: &[u8],
    area: &mut [u16],
    c: usize,
    budget: u32,
) -> u32
    requires { Runnable words.now matrix.now area.old c }
    ensures { RanWords words.now matrix.now area.old c budget result area.new }
{
    let hand = Chunk { area, c }.hand();
    let after = moves_until(words, matrix, area, c, hand, budget);
    moves::settle(area, c, after);
    after.moves - hand.moves
}
