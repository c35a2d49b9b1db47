//! The lines of a hop's actions.

ghost use Rattle.std.specs.Prelude.{◌<◌, ◌≡◌, OnOk};
ghost use Rattle.lynx_names.specs.declared.limits.TheConstants.{MAX_ACTIONS};
ghost use Rattle.lynx_lex.specs.Gives.{Gives};
ghost use Rattle.lynx_lex.specs.Lines.{texts};
ghost use Rattle.lynx_text.specs.inner.Scopes.{plain_scope};
ghost use Rattle.lynx_text.specs.Reading.{operator_of, relation_of, binding, plain, changing, get_of, change_of, let_of, need_of, update_named, update_of, action_of};

use crate::lines::{four_words, three_words};
use crate::scope::Scope;
use lynx_lex::{FaultKind, Name, WordFault, at};
use lynx_names::TableId;
use lynx_set::{Action, Key, Operand, Operator, Relation, Update, Version};

/// An action, and the name that its line binds.
#[derive(Clone, Copy)]
pub(crate) struct ActionLine {
    pub action: Action,
    pub binds: Option<Name>,
}

/// The action of a line's words.
#[tactic(auto, unfolding(crate::specs::Reading::action_of))]
pub(crate) fn read_action(words: &[&[u8]], scope: &Scope) -> Result<ActionLine, WordFault>
    ensures value { Gives (λ line. line) result
        (action_of (plain_scope scope.now) (texts words.now)) }
    ensures room { OnOk result (scope.now.actions < MAX_ACTIONS) }
{
    let [verb, rest @ ..] = words else {
        return Err(WordFault::new(FaultKind::BadLine, 0));
    };
    if *verb == b"get".as_slice() {
        read_get(rest, scope)
    } else if *verb == b"let".as_slice() {
        read_let(rest, scope)
    } else if *verb == b"need".as_slice() {
        read_need(rest, scope)
    } else {
        read_update(verb, rest, scope)
    }
}

/// `get NAME TABLE KEY`
#[tactic(auto, using(crate::proofs::Shapes::get_of_other), unfolding(crate::specs::Reading::get_of))]
fn read_get(words: &[&[u8]], scope: &Scope) -> Result<ActionLine, WordFault>
    ensures value { Gives (λ line. line) result (get_of (plain_scope scope.now) (texts words.now)) }
    ensures room { OnOk result (scope.now.actions < MAX_ACTIONS) }
{
    let (name, table, key) = three_words(words)?;
    scope.has_room()?;
    let name = at(2, scope.new_name(name))?;
    let table = at(3, scope.table(table))?;
    let key = at(4, scope.key(key))?;
    at(4, scope.is_home(table, key))?;
    Ok(binding(name, Action::Get { table, key }))
}

/// `set TABLE KEY VALUE`, or with `add`, `sub` or, in version 2, `max`.
#[tactic(auto, unfolding(crate::specs::Reading::update_of))]
fn read_update(verb: &[u8], words: &[&[u8]], scope: &Scope) -> Result<ActionLine, WordFault>
    ensures value { Gives (λ line. line) result (update_of (plain_scope scope.now) verb.now
        (texts words.now)) }
    ensures room { OnOk result (scope.now.actions < MAX_ACTIONS) }
{
    let update = at(1, update_named(scope.set.version(), verb))?;
    let (table, key, value) = read_change(words, scope)?;
    Ok(plain(Action::Update {
        update,
        table,
        key,
        value,
    }))
}

#[tactic(auto, unfolding(crate::specs::Reading::update_named))]
fn update_named(version: Version, word: &[u8]) -> Result<Update, FaultKind>
    ensures { Gives (λ update. update) result (update_named version word.now) }
{
    if word == b"set".as_slice() {
        Ok(Update::Set)
    } else if word == b"add".as_slice() {
        Ok(Update::Add)
    } else if word == b"sub".as_slice() {
        Ok(Update::Sub)
    } else if word == b"max".as_slice() && version == Version::Two {
        Ok(Update::Max)
    } else {
        Err(FaultKind::BadLine)
    }
}

/// `TABLE KEY VALUE`, what changes a cell.
#[tactic(auto, using(crate::proofs::Shapes::change_of_other), unfolding(crate::specs::Reading::change_of))]
fn read_change(words: &[&[u8]], scope: &Scope) -> Result<(TableId, Key, Operand), WordFault>
    ensures value { Gives (λ change. change) result (change_of (plain_scope scope.now)
        (texts words.now)) }
    ensures room { OnOk result (scope.now.actions < MAX_ACTIONS) }
{
    let (table, key, value) = three_words(words)?;
    scope.has_room()?;
    let table = at(2, scope.table(table))?;
    let key = at(3, scope.key(key))?;
    let value = at(4, scope.operand(value))?;
    at(3, scope.is_home(table, key))?;
    Ok((table, key, value))
}

/// `let NAME VALUE + VALUE`, or with `-`.
#[tactic(auto, using(crate::proofs::Shapes::let_of_other), unfolding(crate::specs::Reading::let_of))]
fn read_let(words: &[&[u8]], scope: &Scope) -> Result<ActionLine, WordFault>
    ensures value { Gives (λ line. line) result (let_of (plain_scope scope.now) (texts words.now)) }
    ensures room { OnOk result (scope.now.actions < MAX_ACTIONS) }
{
    let (name, left, operator, right) = four_words(words)?;
    let operator = at(4, operator_of(operator))?;
    scope.has_room()?;
    let name = at(2, scope.new_name(name))?;
    let left = at(3, scope.operand(left))?;
    let right = at(5, scope.operand(right))?;
    Ok(binding(
        name,
        Action::Let {
            left,
            operator,
            right,
        },
    ))
}

/// `need VALUE RELATION VALUE`
#[tactic(auto, using(crate::proofs::Shapes::need_of_other), unfolding(crate::specs::Reading::need_of))]
fn read_need(words: &[&[u8]], scope: &Scope) -> Result<ActionLine, WordFault>
    ensures value { Gives (λ line. line) result
        (need_of (plain_scope scope.now) (texts words.now)) }
    ensures room { OnOk result (scope.now.actions < MAX_ACTIONS) }
{
    let (left, relation, right) = three_words(words)?;
    let relation = at(3, relation_of(relation))?;
    if !scope.is_first {
        return Err(WordFault::new(FaultKind::NeedNotFirst, 1));
    }
    scope.has_room()?;
    let left = at(2, scope.operand(left))?;
    let right = at(4, scope.operand(right))?;
    Ok(plain(Action::Need {
        left,
        relation,
        right,
    }))
}

#[tactic(auto, unfolding(crate::specs::Reading::operator_of))]
fn operator_of(word: &[u8]) -> Result<Operator, FaultKind>
    ensures { Gives (λ operator. operator) result (operator_of word.now) }
{
    if word == b"+".as_slice() {
        Ok(Operator::Plus)
    } else if word == b"-".as_slice() {
        Ok(Operator::Minus)
    } else {
        Err(FaultKind::BadLine)
    }
}

#[tactic(auto, unfolding(crate::specs::Reading::relation_of))]
fn relation_of(word: &[u8]) -> Result<Relation, FaultKind>
    ensures { Gives (λ relation. relation) result (relation_of word.now) }
{
    if word == b"<".as_slice() {
        Ok(Relation::Below)
    } else if word == b"<=".as_slice() {
        Ok(Relation::AtMost)
    } else if word == b"=".as_slice() {
        Ok(Relation::Same)
    } else if word == b"!=".as_slice() {
        Ok(Relation::Differs)
    } else if word == b">=".as_slice() {
        Ok(Relation::AtLeast)
    } else if word == b">".as_slice() {
        Ok(Relation::Above)
    } else {
        Err(FaultKind::BadLine)
    }
}

fn binding(name: Name, action: Action) -> ActionLine
    ensures { result ≡ binding name action }
{
    ActionLine {
        action,
        binds: Some(name),
    }
}

fn plain(action: Action) -> ActionLine
    ensures { result ≡ plain action }
{
    ActionLine {
        action,
        binds: None,
    }
}
