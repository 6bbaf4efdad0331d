#![tactic(auto)]

ghost use Rattle.std.specs.Prelude.{◌≡◌, [], ◌∷◌};
ghost use Rattle.table.specs.Numbers.{capped};
ghost use Rattle.diagrams.specs.Chess.{ChessDiagrams};
ghost use Rattle.diagrams.specs.Othello.{OthelloDiagrams, TrialsWithNone, TrialsWithNewest};
ghost use Rattle.diagrams.specs.Verdicts.{VerdictsAreMates, VerdictsAreMargins};

use chess::Chess;
use game::Game;
use othello::Othello;
use table::{Newest, NoTable, Table};

/// The worked diagrams, by what calls of a tester come to: chess and Othello diagrams over every table, the trials of an Othello ending under
/// both policies, and a capped sum.
pub fn diagrams_stand<T: Table>()
    ensures chess { ChessDiagrams ⟦<Chess as Game>⟧ T.Table }
    ensures othello { OthelloDiagrams ⟦<Othello as Game>⟧ T.Table }
    ensures none { TrialsWithNone ⟦<Othello as Game>⟧ ⟦<NoTable as Table>⟧ }
    ensures newest { TrialsWithNewest ⟦<Othello as Game>⟧ ⟦<Newest as Table>⟧ }
    ensures sum { capped (999999999 ∷ 1 ∷ []) ≡ 999999999 }
{}

/// What a trial of a tester says in the words of the games, from wherever the tester stands: of a chess tester won only where the attacker mates
/// within the plies left, and not-won only where it does not; of an Othello tester likewise with its margin.
pub fn verdicts_tell<T: Table>()
    ensures chess { VerdictsAreMates ⟦<Chess as Game>⟧ T.Table }
    ensures othello { VerdictsAreMargins ⟦<Othello as Game>⟧ T.Table }
{}
