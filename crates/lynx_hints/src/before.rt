//! What stands before a fault. The lines before it are right, so they are read without judging
//! them.

ghost use Rattle.std.specs.Prelude.{◌≡◌, IfOk, IfSome};

use crate::verb::{LineKind, Verb};
use crate::word::{Word, Written, word_at, words_of};
use lynx_lex::lines::next_line;
use lynx_set::ChainSet;
use std::alloc::{AllocError, Global};

/// A name, and the line that declares it.
#[derive(Clone, Copy)]
pub(crate) struct Declared<'a> {
    pub word: Word<'a>,
    pub line: usize,
    /// The key of the cell whose value the name is, where a `get` binds it; else an empty word.
    pub key: Word<'a>,
}

impl<'a> Declared<'a> {
    /// The name of that word, declared by that line.
    fn new(word: Word<'a>, line: usize) -> Declared<'a> {
        let key = word_at(&[], 0);
        Declared { word, line, key }
    }
}

/// The declaration of a name among these.
pub(crate) fn find<'a>(names: &[Declared<'a>], name: &[u8]) -> Option<Declared<'a>>
    ensures { IfSome result (λ found. found.word.text.now ≡ name.now) }
{
    let found = names.iter().find(|known| known.word.text == name);
    found.copied()
}

/// A shard's table, its greatest key and its server.
#[derive(Clone, Copy)]
struct ShardLine<'a> {
    table: &'a [u8],
    high: u64,
    server: Word<'a>,
}

/// What the lines of a set before a fault declare; before a fault of a script, or of what a service
/// is asked, what the set does.
#[derive(Drop)]
pub(crate) struct Before<'a> {
    pub kind: LineKind,
    /// Whether the text is of version 2.
    pub is_second: bool,
    /// The verb of the last line, None where that is the version's.
    pub last_verb: Option<Verb>,
    pub servers: u64,
    pub tables: Vec<Declared<'a>>,
    shards: Vec<ShardLine<'a>>,
    pub programs: Vec<Declared<'a>>,
    /// Of the program that was begun last, as what follows.
    pub parameters: Vec<Declared<'a>>,
    pub bound: Vec<Declared<'a>>,
    pub last_range: Option<Word<'a>>,
    pub hops: usize,
    /// The server of the hop that was begun last, and its line.
    pub hop: Declared<'a>,
    pub actions: usize,
}

impl<'a> Before<'a> {
    /// Nothing yet.
    fn new(alloc: Global, kind: LineKind) -> Before<'a> {
        Before {
            kind,
            is_second: false,
            last_verb: None,
            servers: 0,
            tables: Vec::new(alloc),
            shards: Vec::new(alloc),
            programs: Vec::new(alloc),
            parameters: Vec::new(alloc),
            bound: Vec::new(alloc),
            last_range: None,
            hops: 0,
            hop: Declared::new(word_at(&[], 0), 0),
            actions: 0,
        }
    }

    /// What the set declares, before a line of that kind.
    pub fn of_set(
        alloc: Global,
        set: &'a ChainSet,
        kind: LineKind,
    ) -> Result<Before<'a>, AllocError>
        ensures { IfOk result (λ before. before.servers ≡ set.now.servers) }
    {
        let mut before = Before::new(alloc, kind);
        before.servers = u64::from(set.servers());
        for (name, _) in set.programs() {
            let text = name.as_bytes();
            let word = Word { text, start: 0 };
            before.programs.push(Declared::new(word, 0))?;
        }
        Ok(before)
    }

    /// What the lines of the text before that of this number declare.
    pub fn of_text(alloc: Global, text: &'a [u8], number: usize) -> Result<Before<'a>, AllocError> {
        let mut before = Before::new(alloc, LineKind::Set);
        let mut rest = text;
        for line in 1..number {
            let Some((bytes, after)) = next_line(rest) else {
                return Ok(before);
            };
            rest = after;
            let words = words_of(alloc, bytes)?;
            before.last_verb = Verb::among(LineKind::Set, word_at(words.as_slice(), 0).text);
            match before.last_verb {
                Some(verb) => before.learn(verb, words.as_slice(), line)?,
                None => before.is_second = bytes == b"lynx 2".as_slice(),
            }
        }
        Ok(before)
    }

    /// Learns what a line declares.
    fn learn(&mut self, verb: Verb, words: &[Word<'a>], line: usize) -> Written {
        let name = Declared::new(word_at(words, 1), line);
        match verb {
            Verb::Servers => self.servers = name.word.number(),
            Verb::Table => self.tables.push(name)?,
            Verb::Shard => self.learn_shard(words)?,
            Verb::Program => self.learn_program(name, words)?,
            Verb::Range => self.last_range = Some(name.word),
            Verb::Hop => {
                self.hops = self.hops.saturating_add(1);
                self.hop = name;
                self.actions = 0;
            }
            _ => {
                self.actions = self.actions.saturating_add(1);
                if verb == Verb::Get {
                    let key = word_at(words, 3);
                    self.bound.push(Declared { key, ..name })?;
                } else if verb == Verb::Let {
                    self.bound.push(name)?;
                }
            }
        }
        Ok(())
    }

    fn learn_shard(&mut self, words: &[Word<'a>]) -> Written {
        let table = self.last_table();
        self.shards.push(ShardLine {
            table,
            high: word_at(words, 2).number(),
            server: word_at(words, 3),
        })?;
        Ok(())
    }

    fn learn_program(&mut self, name: Declared<'a>, words: &[Word<'a>]) -> Written {
        self.programs.push(name)?;
        self.parameters.clear();
        self.bound.clear();
        self.last_range = None;
        self.hops = 0;
        for word in words.iter().skip(2) {
            self.parameters.push(Declared::new(*word, name.line))?;
        }
        Ok(())
    }

    fn last_table(&self) -> &'a [u8] {
        match self.tables.as_slice() {
            [.., last] => last.word.text,
            [] => &[],
        }
    }

    /// How many shards the table has that was declared last.
    pub fn shards_of_last(&self) -> usize {
        let (shards, table) = (self.shards.as_slice(), self.last_table());
        shards.iter().filter(|shard| shard.table == table).count()
    }

    /// Where the shard ends that the last line declares.
    pub fn last_high(&self) -> Option<u64> {
        match self.shards.as_slice() {
            [.., last] if self.last_verb == Some(Verb::Shard) => Some(last.high),
            _ => None,
        }
    }

    /// The server that keeps that key of the table.
    pub fn keeper_of(&self, table: &[u8], key: u64) -> Option<Word<'a>> {
        let mut shards = self.shards.as_slice().iter();
        let shard = shards.find(|shard| shard.table == table && key <= shard.high)?;
        Some(shard.server)
    }
}
