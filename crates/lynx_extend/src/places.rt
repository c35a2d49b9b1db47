//! What a folder has of the stores that a set is to take over.
ghost use Rattle.std.specs.Prelude.{◌≡◌, take};
ghost use Rattle.std.specs.List.{list_any};
ghost use Rattle.lynx_extend.specs.Places.{are_made, first_lost, is_empty, is_new, old_servers, servers_in, were_there};

/// What stands in the place of a server's store.
#[derive(Clone, Copy, Debug, PartialEq, Eq)]
pub enum Place {
    /// No store.
    Empty,
    /// The store of an earlier set, which has so many servers.
    Old { servers: u8 },
    /// A store of the new set.
    New,
}

fn is_empty(place: Place) -> bool
    ensures { result ≡ is_empty place }
{
    match place {
        Place::Empty => true,
        Place::Old { .. } | Place::New => false,
    }
}

fn is_new(place: Place) -> bool
    ensures { result ≡ is_new place }
{
    match place {
        Place::New => true,
        Place::Old { .. } | Place::Empty => false,
    }
}

/// How many servers the earlier set has that the store is of, 0 where there is none such.
fn servers_in(place: Place) -> u8
    ensures { result ≡ servers_in place }
{
    match place {
        Place::Old { servers } => servers,
        Place::Empty | Place::New => 0,
    }
}

/// As many servers as the greatest of the earlier sets has, 0 where there is none.
fn old_servers(places: &[Place]) -> u8
    ensures { result ≡ old_servers places.now }
{
    places
        .iter()
        .fold(0, |most: u8, place| most.max(servers_in(*place)))
}

/// The first so many places.
fn front(places: &[Place], count: usize) -> &[Place]
    ensures { result.now ≡ take count places.now }
{
    if count < places.len() {
        &places[..count]
    } else {
        places
    }
}

/// Whether a store of the new set is among these.
fn has_new(places: &[Place]) -> bool
    ensures { result ≡ list_any is_new places.now }
{
    places.iter().any(|place| is_new(*place))
}

/// Whether the stores of all servers were made.
fn are_made(places: &[Place]) -> bool
    ensures { result ≡ are_made places.now }
{
    let old = old_servers(places);
    old == 0 || has_new(front(places, usize::from(old)))
}

/// How many stores were there.
fn were_there(places: &[Place]) -> usize
    ensures { result ≡ were_there places.now }
{
    if are_made(places) {
        places.len()
    } else {
        usize::from(old_servers(places))
    }
}

/// The first server, by its place, whose store was there and isn't: it is not to be made anew. The
/// places are those of the new set's servers, in order. The stores of the servers that the new set
/// adds were there once a store was given to it, since they are made before.
pub fn first_lost(places: &[Place]) -> Option<usize>
    ensures { result ≡ first_lost places.now }
{
    front(places, were_there(places))
        .iter()
        .position(|place| is_empty(*place))
}
