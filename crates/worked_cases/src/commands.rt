// The words of the protocol.
ghost use Rattle.worked_cases.specs.Protocol.{CommandsListed, UnknownCodes, ParametersListed, RefusalsListed};

// What is said of each command, and found by its code.
#[tactic(auto, using(crate::proofs::Protocol::commands_listed))]
fn fourteen_commands()
    ensures { CommandsListed }
{}

// Codes by which nothing is found.
#[tactic(auto, using(crate::proofs::Protocol::unknown_codes))]
fn codes_of_none()
    ensures { UnknownCodes }
{}

// The parameters by their names and lengths.
#[tactic(auto, using(crate::proofs::Protocol::parameters_listed))]
fn parameter_names()
    ensures { ParametersListed }
{}

// The refusals by their numbers and names.
#[tactic(auto, using(crate::proofs::Protocol::refusals_listed))]
fn refusal_names()
    ensures { RefusalsListed }
{}
