//! Runs and command lines that are computed from the definitions. The functions do nothing: each law is the contract.
ghost use Rattle.std.specs.Prelude.{◌≡◌, ◌++◌, ◌∷◌, [], codes, None, Some};
ghost use Rattle.cube_cli.specs.declared.command.Command.TheVariants as command;
ghost use Rattle.cube_cli.specs.declared.command.StoreCommand.TheVariants as store_command;
ghost use Rattle.cube_cli.specs.Command.{asked_line, command_of};
ghost use Rattle.cube_cli.specs.Examples.{Gives, city_and_state, city_and_state_replies, grown_state, grown_state_replies, hours, hours_replies, listed_worlds, listed_worlds_replies, nothing_to_divide, nothing_to_divide_replies, parts_of_outcomes, parts_of_outcomes_replies, refused_and_skipped, refused_and_skipped_replies, told_in_fractions, told_in_fractions_replies};

/// Two inputs worked out by hand. A fact in a city and one somewhere in its state: the count at the city has a term for
/// each. A fact somewhere in a state counts two halves there, a repeated insert, an unknown line and a question about no
/// fact are refused, and a remark is skipped.
pub fn worked_examples()
    ensures city_and_state { Gives city_and_state city_and_state_replies 0 }
    ensures refusals { Gives refused_and_skipped refused_and_skipped_replies 3 }
{}

/// Two more with measures. The parts of a distribution at a city are its own and one half of its state's, and parts that do
/// not add up are refused. A fact somewhere in a state lies by the hours of its cities, which are not below 0.
pub fn worked_measures()
    ensures distribution { Gives parts_of_outcomes parts_of_outcomes_replies 1 }
    ensures weight { Gives hours hours_replies 1 }
{}

/// Two more with questions. Where there is no fact the count and a sum are 0, and an average and a pooled distribution are not
/// defined. A fact in a city and one half of another, which lies somewhere in its state: what they count, their hours, the
/// average of these, and what their parts pool to. A distribution has no sum.
pub fn worked_questions()
    ensures none { Gives nothing_to_divide nothing_to_divide_replies 2 }
    ensures fractions { Gives told_in_fractions told_in_fractions_replies 1 }
{}

/// One more with growths. A part of a city takes its place in the rows of a fact somewhere in the state, which is
/// allocated as before. One more city takes a third of it. A dimension that is not there, and a name that a node has,
/// are refused.
pub fn worked_growths()
    ensures { Gives grown_state grown_state_replies 2 }
{}

/// One more: a fact of which two thirds are in a city, and the two worlds in which it stands there or in the other city.
pub fn worked_listing()
    ensures { Gives listed_worlds listed_worlds_replies 0 }
{}

/// Words that ask a line of a store: its fields, the last of which may be empty. Without a word after the name, or with
/// an empty name, they are no command.
pub fn worked_asked_words()
    ensures command { command_of (codes "ask" ∷ codes "s" ∷ codes "count" ∷ codes "TX" ∷ []) ≡ Some (command.Store store_command.Ask) }
    ensures line { asked_line (codes "ask" ∷ codes "s" ∷ codes "count" ∷ codes "TX" ∷ []) ≡ codes "count" ++ 9 ∷ codes "TX" }
    ensures empty { asked_line (codes "ask" ∷ codes "s" ∷ codes "count" ∷ [] ∷ []) ≡ codes "count" ++ 9 ∷ [] }
    ensures no_word { command_of (codes "ask" ∷ codes "s" ∷ []) ≡ None }
    ensures no_name { command_of (codes "ask" ∷ [] ∷ codes "count" ∷ []) ≡ None }
{}
