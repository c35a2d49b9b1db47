//! Laws of servers, each the contract of a function that does nothing.
ghost use Rattle.std.specs.Prelude.{◌≡◌, ℕ, true};
ghost use Rattle.lynx_set.specs.Set.{Set};
ghost use Rattle.lynx_entry.specs.Entry.{History};
ghost use Rattle.lynx_rules.specs.Answers.{is_busy};
ghost use Rattle.lynx_server.specs.History.{IsLawfulHistory};
ghost use Rattle.lynx_server.specs.Returning.{HasReturn};

/// A server is busy only where some program that begins there has a later hop there: else each
/// begin is over at once.
pub fn busy_needs_a_return()
    ensures { (set : Set) (server : ℕ) (history : History) → IsLawfulHistory set server history
        → is_busy set server history ≡ true → HasReturn set server }
{}
