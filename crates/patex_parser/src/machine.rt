ghost use Rattle.std.specs.Prelude.{◌≡◌, Some, None, IfOk, if◌then◌else◌};
ghost use Rattle.mine_model.specs.Numbered.{tree_of};
ghost use Rattle.patex_grammar.specs.Machine as machine;
ghost use Rattle.patex_parser.specs.Reading.{IsEnd};
ghost use Rattle.patex_parser.specs.View.{tree_if, tree_if_if, last_of, last_if, frames_of, state_of, state_if, mark_of};

use super::token::{Bracket, Mark};
use mine_model::{Expr, Item, Leaf, NoMemory};
use std::alloc::Global;

/// The operand that was read last.
#[derive(Drop)]
pub(crate) enum Last {
    /// An operand must come.
    Nothing,
    /// A name must come, behind `!`.
    Excluding,
    /// An item expression, which `^` and `=` may extend.
    Extendable(Leaf),
    Closed(Expr),
}

/// An open bracket, with the choice and the row before it.
#[derive(Drop)]
pub(crate) struct Frame {
    bracket: Bracket,
    choice: Option<Expr>,
    row: Option<Expr>,
}

/// What was read of an expression: the open brackets, the innermost last, and since the innermost what stands
/// before the last bar, what stands behind it in a row before the last operand, and the last operand.
#[derive(Drop)]
pub(crate) struct Machine {
    stack: Vec<Frame>,
    choice: Option<Expr>,
    row: Option<Expr>,
    last: Last,
}

fn row_with(alloc: Global, row: Option<Expr>, right: Expr) -> Result<Expr, NoMemory>
    ensures { IfOk result (λ tree. tree_of tree ≡ machine.row_with (tree_if row) (tree_of right)) }
{
    match row {
        None => Ok(right),
        Some(left) => Ok(Expr::Cat(Box::new(alloc, left)?, Box::new(alloc, right)?)),
    }
}

fn choice_with(alloc: Global, choice: Option<Expr>, right: Expr) -> Result<Expr, NoMemory>
    ensures { IfOk result (λ tree. tree_of tree ≡ machine.choice_with (tree_if choice) (tree_of right)) }
{
    match choice {
        None => Ok(right),
        Some(left) => Ok(Expr::Alt(Box::new(alloc, left)?, Box::new(alloc, right)?)),
    }
}

impl Last {
    fn tree(self) -> Option<Expr>
        ensures { tree_if result ≡ machine.tree_of_last (last_of self) }
    {
        match self {
            Last::Nothing => None,
            Last::Excluding => None,
            Last::Extendable(leaf) => Some(Expr::Leaf(leaf)),
            Last::Closed(tree) => Some(tree),
        }
    }

    fn with_equals(self) -> Option<Last>
        ensures { last_if result ≡ machine.with_equals (last_of self) }
    {
        match self {
            Last::Extendable(Leaf::Under(name)) => Some(Last::Extendable(Leaf::Exact(name))),
            Last::Extendable(Leaf::Climb(name)) => Some(Last::Extendable(Leaf::Forced(name))),
            Last::Extendable(Leaf::Not(name)) => { Some(Last::Extendable(Leaf::NotExact(name))) }
            _ => None,
        }
    }

    fn with_caret(self) -> Option<Last>
        ensures { last_if result ≡ machine.with_caret (last_of self) }
    {
        match self {
            Last::Extendable(Leaf::Under(name)) => Some(Last::Extendable(Leaf::Climb(name))),
            Last::Extendable(Leaf::Any) => Some(Last::Extendable(Leaf::AnyClimb)),
            _ => None,
        }
    }
}

fn finished(
    alloc: Global,
    choice: Option<Expr>,
    row: Option<Expr>,
    last: Last,
) -> Result<Option<Expr>, NoMemory>
    ensures { IfOk result (λ tree. tree_if tree
        ≡ machine.finished (tree_if choice) (tree_if row) (last_of last)) }
{
    let Some(operand) = last.tree() else {
        return Ok(None);
    };
    let tree = row_with(alloc, row, operand)?;
    Ok(Some(choice_with(alloc, choice, tree)?))
}

// The row once one more operand begins. None where only a name may come.
fn begun(alloc: Global, row: Option<Expr>, last: Last) -> Result<Option<Option<Expr>>, NoMemory>
    ensures { IfOk result (λ begun. tree_if_if begun ≡ machine.begun (tree_if row) (last_of last)) }
{
    match last {
        Last::Nothing => Ok(Some(row)),
        Last::Excluding => Ok(None),
        Last::Extendable(leaf) => Ok(Some(Some(row_with(alloc, row, Expr::Leaf(leaf))?))),
        Last::Closed(tree) => Ok(Some(Some(row_with(alloc, row, tree)?))),
    }
}

impl Machine {
    /// Nothing was read.
    pub(crate) fn new(alloc: Global) -> Machine
        ensures { state_of result ≡ machine.initial }
    {
        Machine {
            stack: Vec::new(alloc),
            choice: None,
            row: None,
            last: Last::Nothing,
        }
    }

    fn with_name(self, alloc: Global, name: Item) -> Result<Option<Machine>, NoMemory>
        ensures { IfOk result (λ next. state_if next
            ≡ machine.next (state_of self) (mark_of (Mark.Name name))) }
    {
        let Machine {
            stack,
            choice,
            row,
            last,
        } = self;
        if let Last::Excluding = last {
            return Ok(Some(Machine {
                stack,
                choice,
                row,
                last: Last::Extendable(Leaf::Not(name)),
            }));
        }
        match begun(alloc, row, last)? {
            None => Ok(None),
            Some(row) => Ok(Some(Machine {
                stack,
                choice,
                row,
                last: Last::Extendable(Leaf::Under(name)),
            })),
        }
    }

    // One more operand.
    fn with_last(self, alloc: Global, new: Last) -> Result<Option<Machine>, NoMemory>
        ensures { IfOk result (λ next. state_if next
            ≡ machine.with_last (frames_of self.stack.items) (tree_if self.choice)
            (machine.begun (tree_if self.row) (last_of self.last)) (last_of new)) }
    {
        let Machine {
            stack,
            choice,
            row,
            last,
        } = self;
        match begun(alloc, row, last)? {
            None => Ok(None),
            Some(row) => Ok(Some(Machine {
                stack,
                choice,
                row,
                last: new,
            })),
        }
    }

    fn extended(self, by_caret: bool) -> Option<Machine>
        ensures { state_if result
            ≡ machine.next (state_of self) (if by_caret then machine.caret else machine.equals) }
    {
        let Machine {
            stack,
            choice,
            row,
            last,
        } = self;
        let longer = if by_caret {
            last.with_caret()
        } else {
            last.with_equals()
        };
        match longer {
            None => None,
            Some(last) => Some(Machine {
                stack,
                choice,
                row,
                last,
            }),
        }
    }

    fn opened(self, alloc: Global, bracket: Bracket) -> Result<Option<Machine>, NoMemory>
        ensures { IfOk result (λ next. state_if next
            ≡ machine.next (state_of self) (mark_of (Mark.Opening bracket))) }
    {
        let Machine {
            mut stack,
            choice,
            row,
            last,
        } = self;
        match begun(alloc, row, last)? {
            None => Ok(None),
            Some(row) => {
                stack.push(Frame {
                    bracket,
                    choice,
                    row,
                })?;
                Ok(Some(Machine {
                    stack,
                    choice: None,
                    row: None,
                    last: Last::Nothing,
                }))
            }
        }
    }

    fn repeated(
        self,
        alloc: Global,
        least: u32,
        most: Option<u32>,
    ) -> Result<Option<Machine>, NoMemory>
        ensures { IfOk result (λ next. state_if next
            ≡ machine.next (state_of self) (machine.postfix least most)) }
    {
        let Machine {
            stack,
            choice,
            row,
            last,
        } = self;
        match last.tree() {
            None => Ok(None),
            Some(tree) => Ok(Some(Machine {
                stack,
                choice,
                row,
                last: Last::Closed(Expr::Rep {
                    inner: Box::new(alloc, tree)?,
                    least,
                    most,
                }),
            })),
        }
    }

    /// Reads one more token. None where no expression goes on with it.
    pub(crate) fn step(self, alloc: Global, mark: Mark) -> Result<Option<Machine>, NoMemory>
        ensures { IfOk result (λ next. state_if next ≡ machine.next (state_of self) (mark_of mark)) }
    {
        match mark {
            Mark::Name(name) => self.with_name(alloc, name),
            Mark::Caret => Ok(self.extended(true)),
            Mark::Equals => Ok(self.extended(false)),
            Mark::Dot => self.with_last(alloc, Last::Extendable(Leaf::Any)),
            Mark::Bang => self.with_last(alloc, Last::Excluding),
            Mark::Bar => self.with_bar(alloc),
            Mark::Opening(bracket) => self.opened(alloc, bracket),
            Mark::Closing(bracket) => self.shut(alloc, bracket),
            Mark::Postfix { least, most } => self.repeated(alloc, least, most),
        }
    }

    /// The tree of a whole expression. None where a bracket is open or an operand is missing.
    pub(crate) fn finish(self, alloc: Global) -> Result<Option<Expr>, NoMemory>
        ensures { IfOk result (λ tree. IsEnd (state_of self) (tree_if tree)) }
    {
        let Machine {
            stack,
            choice,
            row,
            last,
        } = self;
        if !stack.is_empty() {
            return Ok(None);
        }
        finished(alloc, choice, row, last)
    }

    fn with_bar(self, alloc: Global) -> Result<Option<Machine>, NoMemory>
        ensures { IfOk result (λ next. state_if next ≡ machine.next (state_of self) machine.bar) }
    {
        let Machine {
            stack,
            choice,
            row,
            last,
        } = self;
        match finished(alloc, choice, row, last)? {
            None => Ok(None),
            Some(tree) => Ok(Some(Machine {
                stack,
                choice: Some(tree),
                row: None,
                last: Last::Nothing,
            })),
        }
    }

    fn shut(self, alloc: Global, bracket: Bracket) -> Result<Option<Machine>, NoMemory>
        ensures { IfOk result (λ next. state_if next
            ≡ machine.next (state_of self) (mark_of (Mark.Closing bracket))) }
    {
        let Machine {
            mut stack,
            choice,
            row,
            last,
        } = self;
        let Some(tree) = finished(alloc, choice, row, last)? else {
            return Ok(None);
        };
        let Some(frame) = stack.pop() else {
            return Ok(None);
        };
        let Frame {
            bracket: opened,
            choice: choice_before,
            row: row_before,
        } = frame;
        if opened != bracket {
            return Ok(None);
        }
        let closed = match bracket {
            Bracket::Round => Expr::Cap(Box::new(alloc, tree)?),
            Bracket::Square => tree,
        };
        Ok(Some(Machine {
            stack,
            choice: choice_before,
            row: row_before,
            last: Last::Closed(closed),
        }))
    }
}
