//! Key files of the sessions.

/// The key file of the second peer of `session`.
pub fn peer_key() -> &'static str {
    "version = 1\nid = \"0011223344556677\"\nparty = 2\nrounds = 10\nlms = 6\nots = 4\n\
    secret = \"0909090909090909090909090909090909090909090909090909090909090909\"\nspent = false\n"
}

/// The key file of its broadcaster.
pub fn caster_key() -> &'static str {
    "version = 1\nid = \"0011223344556677\"\nparty = 0\nrounds = 10\nlms = 6\nots = 4\n\
    secret = \"0707070707070707070707070707070707070707070707070707070707070707\"\nspent = false\n"
}

/// The same key file, spent.
pub fn spent_caster_key() -> &'static str {
    "version = 1\nid = \"0011223344556677\"\nparty = 0\nrounds = 10\nlms = 6\nots = 4\n\
    secret = \"0707070707070707070707070707070707070707070707070707070707070707\"\nspent = true\n"
}

/// The key file of the second peer of `small_session`.
pub fn small_key() -> &'static str {
    "version = 1\nid = \"0011223344556677\"\nparty = 2\nrounds = 1\n\
    lms = 5\nots = 4\n\
    secret = \"0909090909090909090909090909090909090909090909090909090909090909\"\nspent = false\n"
}

/// The key file of its broadcaster.
pub fn small_caster_key() -> &'static str {
    "version = 1\nid = \"0011223344556677\"\nparty = 0\nrounds = 1\n\
    lms = 5\nots = 4\n\
    secret = \"0707070707070707070707070707070707070707070707070707070707070707\"\nspent = false\n"
}
