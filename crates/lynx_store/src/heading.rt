ghost use Rattle.std.specs.Prelude.{◌≡◌, ◌≢◌, ◌↔◌, ◌∷◌, [], ℕ, List, pos, IfNone, IfOk, IfSome, IsTrue};
ghost use Rattle.std.specs.Fmt.{decimal};
ghost use Rattle.sqlite_value.specs.declared.value.Value.TheVariants.{Int, Text};
ghost use Rattle.lynx_set.specs.Text.{text_of};
ghost use Rattle.lynx_sql.specs.Rows.{shown_meta};
ghost use Rattle.lynx_store.specs.Heading.{owner_in};
ghost use Rattle.lynx_sql.specs.Contents.{Title, title_of};
ghost use Rattle.lynx_store.specs.Stored.{ShowsTitle, title_for, version_for, version_text};

use crate::columns::{is_number, is_text, text_in};
use lynx_names::{Memory, ServerId};
use lynx_set::{ChainSet, Version};
use lynx_sql::StoreVersion;
use lynx_text::print;
use lynx_text::printing::put_number;
use sqlite::Row;
use std::alloc::Global;

/// The first text of `meta` in a store of a version.
pub(crate) fn version_text(version: StoreVersion) -> &'static [u8]
    ensures { result.now ≡ version_text version }
{
    match version {
        StoreVersion::One => b"lynx store 1",
        StoreVersion::Two => b"lynx store 2",
    }
}

/// The version of the stores of a set.
pub(crate) fn version_for(version: Version) -> StoreVersion
    ensures { result ≡ version_for version }
{
    match version {
        Version::One => StoreVersion::One,
        Version::Two => StoreVersion::Two,
    }
}

/// The version, the server and the set of a store, as `meta` has them.
#[derive(Debug, Drop)]
pub struct Heading {
    pub version: StoreVersion,
    /// The server's number in decimal.
    pub server: Vec<u8>,
    /// The text of the set.
    pub set: Vec<u8>,
}

impl Heading {
    /// That of a server of a set.
    pub fn new(alloc: Global, set: &ChainSet, server: ServerId) -> Result<Heading, Memory>
        ensures version { IfOk result (λ heading. heading.version ≡ version_for set.now.version) }
        ensures server { IfOk result (λ heading. heading.server.items ≡ decimal server) }
        ensures set { IfOk result (λ heading. heading.set.items ≡ text_of set.now) }
    {
        let mut number = Vec::new(alloc);
        put_number(alloc, &mut number, u64::from(server.number()))?;
        let version = version_for(set.version());
        let set = print(alloc, set)?;
        Ok(Heading {
            version,
            server: number,
            set,
        })
    }

    /// That of these texts.
    pub(crate) fn copied(
        alloc: Global,
        version: StoreVersion,
        server: &[u8],
        set: &[u8],
    ) -> Result<Heading, Memory>
        ensures version { IfOk result (λ heading. heading.version ≡ version) }
        ensures server { IfOk result (λ heading. heading.server.items ≡ server.now) }
        ensures set { IfOk result (λ heading. heading.set.items ≡ set.now) }
    {
        Ok(Heading {
            version,
            server: Vec::from_slice(alloc, server)?,
            set: Vec::from_slice(alloc, set)?,
        })
    }

    /// Whether the rows of `meta` are its texts.
    pub(crate) fn is_shown(&self, rows: &[Row]) -> bool
        ensures { IsTrue result ↔ (rows.now ≡ shown_meta (title_for (owner_in self.now))) }
    {
        let [version, server, set] = rows else {
            return false;
        };
        is_meta_row(version, 1, version_text(self.version))
            && is_meta_row(server, 2, self.server.as_slice())
            && is_meta_row(set, 3, self.set.as_slice())
    }
}

/// The three texts of `meta`: the version, the server and the set. None where the rows are no
/// three such.
pub(crate) fn texts_of(rows: &[Row]) -> Option<(&[u8], &[u8], &[u8])>
    ensures some { IfSome result
        (λ texts. ShowsTitle rows.now (title_of texts.0.now texts.1.now texts.2.now)) }
    ensures none { IfNone result ((title : Title) → ShowsTitle rows.now title → ⊥) }
{
    let [version, server, set] = rows else {
        return None;
    };
    let version = meta_text(version, 1)?;
    let server = meta_text(server, 2)?;
    let set = meta_text(set, 3)?;
    Some((version, server, set))
}

/// The text of the row of `meta` that has that number, None where it is no such row.
fn meta_text(row: &Row, id: u32) -> Option<&[u8]>
    ensures some { IfSome result (λ text. row.now ≡ Int (pos id) ∷ Text text.now ∷ []) }
    ensures none { IfNone result ((text : List ℕ) → row.now ≢ Int (pos id) ∷ Text text ∷ []) }
{
    if row.column_count() != 2 || !is_number(row, 0, id) {
        return None;
    }
    text_in(row, 1)
}

/// Whether a row of `meta` has that number and that text.
fn is_meta_row(row: &Row, id: u32, text: &[u8]) -> bool
    ensures { IsTrue result ↔ (row.now ≡ Int (pos id) ∷ Text text.now ∷ []) }
{
    row.column_count() == 2 && is_number(row, 0, id) && is_text(row, 1, text)
}
