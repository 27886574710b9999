ghost use Rattle.std.specs.Prelude.{◌≡◌};
ghost use Rattle.result_board.specs.Board.{HasRow};

use super::board::Board;
use mine_model::{NoMemory, Row};
use search_tree::Label;
use std::marker::Model;
use turn_lock::Change;

/// A label that is to be posted, and its row, where it has one.
#[derive(Drop)]
pub struct Post {
    label: Label,
    row: Option<Row>,
}

impl Model for Post {
    ghost use Rattle.result_board.specs.Board.{Posting};

    ghost Value = { Posting };

    ghost view = { λ p. record { label = p.label; row = p.row } };
}

impl Post {
    /// Posts the label with this row. Takes no memory.
    pub fn new(label: Label, row: Option<Row>) -> Post
        ensures { result ≡ record { label = label; row = row } }
    {
        Post { label, row }
    }
}

impl Change<Board> for Post {
    ghost entry = { λ p. p.label };

    ghost suits = { λ p job. HasRow job p.label p.row };

    // It can be made again.
    ghost refused = { λ before after. after ≡ before };

    fn apply(&mut self, number: u32, board: &mut Board) -> Result<(), NoMemory> {
        board.post(number, &self.label, &mut self.row)
    }
}
