//! A law of lines, as the contract of a function that does nothing.

ghost use Rattle.std.specs.Prelude.{ℕ, List};
ghost use Rattle.dl_request.specs.declared.request.Asked.{Asked};
ghost use Rattle.dl_request.specs.Requests.{AsksOnly};

/// Each line asks for exactly one thing, with or without memory to read it.
pub fn lines_ask_for_one_thing()
    ensures { (line : List ℕ) → (x : Asked) × AsksOnly line x }
{}
