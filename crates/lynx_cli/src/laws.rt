//! The limits of the store, by their numbers.
ghost use Rattle.std.specs.Prelude.{◌≡◌, ◌^◌};
ghost use Rattle.lynx_names.specs.declared.limits.TheConstants.{MAX_ACTIONS, MAX_ENTRIES, MAX_HELD, MAX_HOPS, MAX_NAME_BYTES, MAX_PARAMETERS, MAX_PROGRAMS, MAX_SERVERS, MAX_SHARDS, MAX_TABLES, MAX_TEXT_BYTES, STAMP_LIMIT};
ghost use Rattle.lynx_codec.specs.declared.limits.TheConstants.{MAX_BODY_BYTES, MAX_ENCODING_BYTES};
ghost use Rattle.lynx_cli.specs.declared.source.TheConstants.{MAX_FILE_BYTES, MAX_INPUT_BYTES};

/// The limits that contracts name by their constants: of a set, of a program, of a server, of
/// encodings, and of texts. A file is read to one byte more than a text may have, and standard
/// input to two of these and a separator between them.
pub fn limits()
    ensures servers { MAX_SERVERS ≡ 16 }
    ensures tables { MAX_TABLES ≡ 64 }
    ensures shards { MAX_SHARDS ≡ 64 }
    ensures programs { MAX_PROGRAMS ≡ 64 }
    ensures parameters { MAX_PARAMETERS ≡ 8 }
    ensures hops { MAX_HOPS ≡ 8 }
    ensures actions { MAX_ACTIONS ≡ 16 }
    ensures name_bytes { MAX_NAME_BYTES ≡ 24 }
    ensures entries { MAX_ENTRIES ≡ 1000000 }
    ensures held { MAX_HELD ≡ 64 }
    ensures stamps { STAMP_LIMIT ≡ 2 ^ 62 }
    ensures body_bytes { MAX_BODY_BYTES ≡ 2048 }
    ensures encoding_bytes { MAX_ENCODING_BYTES ≡ 2053 }
    ensures text_bytes { MAX_TEXT_BYTES ≡ 65536 }
    ensures file_bytes { MAX_FILE_BYTES ≡ 65537 }
    ensures input_bytes { MAX_INPUT_BYTES ≡ 131076 }
{}
