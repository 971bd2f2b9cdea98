// The form of a tree in a line.
ghost use Rattle.std.specs.Prelude.{◌≡◌, ◌<◌, ◌+◌, ◌-◌, ◌^◌, length, MatchOption, IfSome, ℕ, suc, false};
ghost use Rattle.wt_line.specs.Given.{left};
ghost use Rattle.wt_cert.specs.Trees.{is_tree, is_forest, IsNoForest, IsForestOf, held_owed, ending};
ghost use Rattle.wt_line.specs.Left.{tokens_left, room_left};

use wt_line::{Rest, is_decimal, next_token, number};

fn owed_by(citing: bool, token: &[u8]) -> Option<u64>
    ensures { result ≡ held_owed (ending citing token.now) }
{
    if citing && token == b"c1".as_slice() {
        return Some(0);
    }
    if citing && token == b"c2".as_slice() {
        return Some(0);
    }
    number(token)
}

/// One child with its node: what the node owes, and what is left.
fn next_child(citing: bool, rest: Rest<'_>) -> Option<(u64, Rest<'_>)>
    ensures form { MatchOption result (IsNoForest citing (tokens_left rest.entry)) (λ x. IsForestOf citing (tokens_left rest.entry) x.0 (tokens_left x.1)) }
    ensures fewer { IfSome result (λ x. room_left x.1 < room_left rest.entry) }
    ensures few { IfSome result (λ x. length (tokens_left x.1) < 2 ^ 64 - 1) }
{
    let (tile, rest) = next_token(rest)?;
    let (cell, rest) = next_token(rest)?;
    let (count, rest) = next_token(rest)?;
    if !is_decimal(tile) || !is_decimal(cell) {
        return None;
    }
    let owed = owed_by(citing, count)?;
    Some((owed, rest))
}

fn first_node(citing: bool, rest: Rest<'_>) -> Option<(u64, Rest<'_>)>
    ensures { MatchOption result (is_tree citing (tokens_left rest.entry) ≡ false) (λ x. is_tree citing (tokens_left rest.entry) ≡ is_forest citing x.0 (tokens_left x.1)) }
{
    let (cell, rest) = next_token(rest)?;
    let (count, rest) = next_token(rest)?;
    if !is_decimal(cell) {
        return None;
    }
    let owed = owed_by(citing, count)?;
    Some((owed, rest))
}

/// Whether the tokens to the end of a line are those of a tree.
pub fn tree_form(citing: bool, rest: Rest<'_>) -> bool
    ensures { result ≡ is_tree citing (tokens_left rest.entry) }
{
    let Some((owed, after)) = first_node(citing, rest) else {
        return false;
    };
    let mut owed = owed;
    let mut rest = after;
    while owed > 0 {
        let Some((more, after)) = next_child(citing, rest) else {
            return false;
        };
        owed = (owed - 1).saturating_add(more);
        rest = after;
    }
    !rest.more
}
