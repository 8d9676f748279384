//! Laws of histories and texts: each function's contract is one of them, and its body does nothing.
ghost use Rattle.history_laws.specs.Laws.{BusySessionsWereLaunched, NextOrdersAreDone, RegularHistoriesAreThere, EventsAreFewer};
ghost use Rattle.history_laws.specs.Laws.{SpecsHaveTheirBlocks, EachHasAHistory, EveryFileIsOneThing, EveryFileHasAText};

use permutation_lists::interleavings_keep_counts;
use permutation_plans::laws::each_has_one_history;
use spec_files::laws::{one_file, one_text};
use spec_parser::{specs_are_slices, specs_stand};
use wait_laws::laws::rest_is_reached;

/// A session that is in a block was given it by a Launch, and no item of the history since then ended a block of the session.
pub fn busy_sessions_were_launched()
    ensures { BusySessionsWereLaunched }
{}

/// Whatever a permutation orders next, where its blocks and steps are there, the machine does.
pub fn next_orders_are_done()
    ensures { NextOrdersAreDone }
{
    busy_sessions_were_launched();
}

/// Each permutation whose blocks and steps are there has a regular history.
pub fn regular_histories_are_there()
    ensures { RegularHistoriesAreThere }
{
    next_orders_are_done();
    rest_is_reached();
}

/// Each event that carries out what is due leaves fewer events, so that a run comes to its end.
pub fn events_are_fewer()
    ensures { EventsAreFewer }
{
    rest_is_reached();
}

/// The blocks and steps of a spec that was read are there, and each session may be given its own.
pub fn specs_have_their_blocks()
    ensures { SpecsHaveTheirBlocks }
{
    specs_stand();
    specs_are_slices();
    interleavings_keep_counts();
}

/// Each permutation of a file has exactly one regular history.
pub fn each_has_a_history()
    ensures { EachHasAHistory }
{
    specs_have_their_blocks();
    regular_histories_are_there();
    each_has_one_history();
}

/// The bytes of a file are exactly one spec, or have exactly one refusal.
pub fn every_file_is_one_thing()
    ensures { EveryFileIsOneThing }
{
    one_file();
}

/// Whatever the bytes of a file are, for each limit they have exactly one text with its notes and its end, or exactly one
/// refusal.
pub fn every_file_has_a_text()
    ensures { EveryFileHasAText }
{
    each_has_a_history();
    every_file_is_one_thing();
    one_text();
}
