//! What definitions come to, computed. Each function has a contract and no body.

ghost use Rattle.std.specs.Prelude.{◌≡◌, ◌-◌, ◌^◌, ℕ, zero, suc, pos, negsuc, [], ◌∷◌, codes, replicate, Some, None, true, false, is_some, is_none};
ghost use Rattle.serde_json.specs.Data.{unsigned, negative, Data, null, number, string, array, object, no_items, item, no_members, member};
ghost use Rattle.oci_config.specs.Config.{is_plain, is_entry, are_texts, bytes_of, are_arguments, args_at, are_entries, env_at, version_at, directory_at, module_at, pages_of, cap_at, process_read};
ghost use Rattle.oci_config.specs.Setup.{are_taken, pages_under, process_under};
ghost use Rattle.oci_config.specs.Limits.{max_output, max_args, max_entries, max_text_bytes, default_pages};
ghost use Rattle.oci_config.specs.Streams.{stream_of};
ghost use Rattle.oci_config.specs.declared.stream.Stream.TheVariants as stream;
ghost use Rattle.oci_config.specs.Worked.{with_env, with_linux, with_memory, zeros, config_with, asked_with};

/// The limits of the profile.
pub fn limits_are_these()
    ensures output { max_output ≡ 65536 }
    ensures args { max_args ≡ 64 }
    ensures entries { max_entries ≡ 64 }
    ensures bytes { max_text_bytes ≡ 65536 }
    ensures pages { default_pages ≡ 16 }
{}

/// The streams by their numbers.
pub fn streams_are_these()
    ensures out { stream_of 1 ≡ Some stream.Out }
    ensures err { stream_of 2 ≡ Some stream.Err }
    ensures input { stream_of 0 ≡ None }
    ensures none { stream_of 3 ≡ None }
{}

/// Which texts an environment may have.
pub fn entries_are_these()
    ensures value { is_entry (codes "a=b") ≡ true }
    ensures empty_value { is_entry (codes "a=") ≡ true }
    ensures second_sign { is_entry (codes "==x") ≡ true }
    ensures no_sign { is_entry (codes "a") ≡ false }
    ensures no_name { is_entry (codes "=x") ≡ false }
    ensures nothing { is_entry [] ≡ false }
{}

/// Which lists of texts are arguments, and which are entries of an environment.
pub fn texts_are_counted()
    ensures no_argument { are_arguments [] ≡ false }
    ensures empty_argument { are_arguments ([] ∷ []) ≡ true }
    ensures arguments { are_arguments (replicate 64 (codes "a")) ≡ true }
    ensures too_many_arguments { are_arguments (replicate 65 (codes "a")) ≡ false }
    ensures no_entry { are_entries [] ≡ true }
    ensures entries { are_entries (replicate 64 (codes "a=")) ≡ true }
    ensures too_many_entries { are_entries (replicate 65 (codes "a=")) ≡ false }
    ensures one_unnamed { are_entries (codes "a=" ∷ codes "b" ∷ []) ≡ false }
    ensures bytes { bytes_of (codes "a" ∷ codes "bc" ∷ []) ≡ 5 }
{}

/// U+0000 is in no text of a process.
pub fn texts_are_plain()
    ensures plain { is_plain (codes "a") ≡ true }
    ensures nul { is_plain (97 ∷ 0 ∷ []) ≡ false }
    ensures argument { are_arguments ((97 ∷ 0 ∷ []) ∷ []) ≡ false }
    ensures entry { are_entries ((97 ∷ 61 ∷ 0 ∷ []) ∷ []) ≡ false }
    ensures directory { directory_at
        (object (member (codes "cwd") (string (47 ∷ 0 ∷ [])) no_members))
        ≡ None }
{}

/// Versions and working directories.
pub fn outlines_are_these()
    ensures one { version_at
        (object (member (codes "ociVersion") (string (codes "1.0.2")) no_members))
        ≡ Some (codes "1.0.2") }
    ensures one_alone { version_at
        (object (member (codes "ociVersion") (string (codes "1")) no_members))
        ≡ None }
    ensures no_version { version_at (object no_members) ≡ None }
    ensures absolute { directory_at (object (member (codes "cwd") (string (codes "/a")) no_members))
        ≡ Some (codes "/a") }
    ensures relative { directory_at (object (member (codes "cwd") (string (codes "a/")) no_members))
        ≡ None }
{}

/// What the environment of a process may be.
pub fn environments_are_optional()
    ensures missing { env_at (object no_members) ≡ Some [] }
    ensures empty { env_at (with_env (array no_items)) ≡ Some [] }
    ensures no_list { env_at (with_env null) ≡ None }
    ensures no_text { env_at (with_env (array (item null no_items))) ≡ None }
    ensures in_order { env_at (with_env (array
        (item (string (codes "b=1")) (item (string (codes "a=2")) no_items))))
        ≡ Some (codes "b=1" ∷ codes "a=2" ∷ []) }
    ensures no_name { env_at (with_env (array (item (string (codes "=x")) no_items))) ≡ None }
{}

/// The cap on pages that a limit in bytes gives.
pub fn limits_are_in_bytes()
    ensures nothing { pages_of (unsigned 0) ≡ Some 0 }
    ensures below_a_page { pages_of (unsigned 65535) ≡ Some 0 }
    ensures a_page { pages_of (unsigned 65536) ≡ Some 1 }
    ensures rounded_down { pages_of (unsigned 196607) ≡ Some 2 }
    ensures below_the_most { pages_of (unsigned 16777215) ≡ Some 255 }
    ensures the_most { pages_of (unsigned 16777216) ≡ Some 256 }
    ensures at_most { pages_of (unsigned 18446744073709551615) ≡ Some 256 }
    ensures no_limit { pages_of (negative (negsuc 0)) ≡ Some 16 }
    ensures negative { pages_of (negative (negsuc 1)) ≡ None }
{}

/// Where the limit is, and that each part on the way to it is optional.
pub fn limits_are_optional()
    ensures no_linux { cap_at (object no_members) ≡ Some 16 }
    ensures null_linux { cap_at (with_linux null) ≡ None }
    ensures no_resources { cap_at (with_linux (object no_members)) ≡ Some 16 }
    ensures null_resources { cap_at
        (with_linux (object (member (codes "resources") null no_members)))
        ≡ None }
    ensures null_memory { cap_at (with_memory null) ≡ None }
    ensures no_limit { cap_at (with_memory (object no_members)) ≡ Some 16 }
    ensures null_limit { cap_at (with_memory (object (member (codes "limit") null no_members)))
        ≡ None }
    ensures limit { cap_at (with_memory
        (object (member (codes "limit") (number (unsigned 131072)) no_members))) ≡ Some 2 }
{}

/// Whole configs, from their texts.
pub fn configs_are_read()
    ensures least { process_read (config_with [] []) ≡ Some (asked_with [] 16) }
    ensures env { process_read (config_with (codes ",\"env\":[\"b=1\",\"a=\"]") [])
        ≡ Some (asked_with (codes "b=1" ∷ codes "a=" ∷ []) 16) }
    ensures limit { process_read (config_with []
        (codes ",\"linux\":{\"resources\":{\"memory\":{\"limit\":131072}}}"))
        ≡ Some (asked_with [] 2) }
    ensures no_limit { process_read (config_with []
        (codes ",\"linux\":{\"resources\":{\"memory\":{\"limit\":-1}}}"))
        ≡ Some (asked_with [] 16) }
    ensures last { process_read (config_with (codes ",\"cwd\":\"a\"") []) ≡ None }
    ensures unknown { process_read (config_with [] (codes ",\"x\":[1]")) ≡ Some (asked_with [] 16) }
    ensures fraction { process_read (config_with [] (codes ",\"x\":[1.5]")) ≡ None }
    ensures not_json { process_read (config_with [] (codes ",")) ≡ None }
    ensures not_utf8 { process_read (255 ∷ []) ≡ None }
{}

/// Processes that a command line describes: what a config may give, and no more.
pub fn setups_are_those_of_configs()
    ensures alone { are_taken (codes "a" ∷ []) [] ≡ true }
    ensures no_argument { are_taken [] [] ≡ false }
    ensures entry { are_taken (codes "a" ∷ []) (codes "b=" ∷ []) ≡ true }
    ensures no_sign { are_taken (codes "a" ∷ []) (codes "b" ∷ []) ≡ false }
    ensures nul { are_taken (codes "a" ∷ []) ((97 ∷ 61 ∷ 0 ∷ []) ∷ []) ≡ false }
    ensures too_many { are_taken (codes "a" ∷ []) (replicate 65 (codes "a=")) ≡ false }
    ensures no_limit { pages_under None ≡ 16 }
    ensures nothing { pages_under (Some 0) ≡ 0 }
    ensures rounded_down { pages_under (Some 196607) ≡ 2 }
    ensures at_most { pages_under (Some 18446744073709551615) ≡ 256 }
    ensures as_a_config { (bytes : ℕ)
        → pages_of (unsigned bytes) ≡ Some (pages_under (Some bytes)) }
    ensures process { process_read (config_with (codes ",\"env\":[\"b=1\"]")
        (codes ",\"linux\":{\"resources\":{\"memory\":{\"limit\":131072}}}"))
        ≡ Some (record (process_under (codes "a" ∷ []) (codes "b=1" ∷ []) (Some 131072))
        { «module» = zeros }) }
{}
