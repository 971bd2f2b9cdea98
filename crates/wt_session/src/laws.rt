// What holds of the names and of the replies of a script.
ghost use Rattle.std.specs.Prelude.{◌≡◌, ◌≢◌, ℕ, List, Some};
ghost use Rattle.wt_script.specs.declared.word.Word.{Word};
ghost use Rattle.wt_script.specs.Fits.{Fits};
ghost use Rattle.wt_session.specs.declared.value.Value.{Value as Bound};
ghost use Rattle.wt_session.specs.Names.{Names, find, bind};
ghost use Rattle.wt_session.specs.Replies.{Reply};
ghost use Rattle.wt_session.specs.Meaning.{IsReply};
ghost use Rattle.wt_session.specs.Values.{HasGoodValues};
ghost use Rattle.wt_session.specs.Enough.{IsEnoughFor, IsUnspent};

/// A name that is bound has its new value, and every other name has the value that it had.
pub fn bound_names_are_found()
    ensures value { (n : List ℕ) (v : Bound) (names : Names) → find n (bind n v names) ≡ Some v }
    ensures others { (m n : List ℕ) (v : Bound) (names : Names) → m ≢ n → find m (bind n v names) ≡ find m names }
{}

/// A command has one reply at most, where its budget is enough: no window that it asks for has more trials, and no
/// standard tree more nodes. So a command without a budget has one at most, whatever its names are bound to.
pub fn replies_are_one()
    ensures { (names : Names) (word : Word) (x y : Reply) → HasGoodValues names → IsEnoughFor names word
        → IsReply names word x → IsReply names word y → x ≡ y }
{}

/// Every command has a reply: what its meaning asks for is there, whatever the names are bound to.
pub fn replies_exist()
    ensures { (names : Names) (word : Word) → HasGoodValues names → Fits word → (reply : Reply) × IsReply names word reply }
{}

/// A command whose budget is enough doesn't say that it is spent; a command without a budget never does.
pub fn enough_budgets()
    ensures { (names : Names) (word : Word) (reply : Reply) → IsEnoughFor names word → IsReply names word reply → IsUnspent reply }
{}
