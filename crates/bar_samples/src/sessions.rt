//! Texts of sessions for tests. Each is in a function of its own, because every place that names a text makes a proof longer.

/// The id of all sessions here.
pub const ID: [u8; 8] = [0x00, 0x11, 0x22, 0x33, 0x44, 0x55, 0x66, 0x77];

/// A session of two peers and ten rounds. The secrets of the peers are 32 times the byte 8 and 32 times 9; that of the broadcaster is 32
/// times 7.
pub fn session() -> &'static str {
    "version = 1\nid = \"0011223344556677\"\nrounds = 10\nlife = 4\ncap = 4\n\
    per_round = 8\nfanout = 1\nport = 20000\ntick_ms = 20\nlms = 6\nots = 4\n\
    key = \"00000006000000048d1e3644fdcc75d960cb49ec94696848dd05823833a56f5ac63061df7770db1bfbc282df417853c4907357eccb7c925f\"\n\n[[peer]]\n\
    key = \"00000006000000042ef17295b2b2463d8d9beef9c2b84a153262ffbbedd3314d59ffebcd595202b00e84ed977495ad7ce89a0968f687295f\"\n\
    anchor = \"0f6658ab7e90dda684f49951ffa7345a50488289b1681527c9b1fba610ef4502\"\n\n[[peer]]\n\
    key = \"0000000600000004d87398929b1937843f54974546a2b8d69b190ddc534c8aa140c0cb0e6ff6b6ad588117979b2c07fdc2c8b5349e811f42\"\n\
    anchor = \"22d984a93475a329dd35bccd254007ee8d81f582aaf64ee95e3bfea93bfbea63\"\n"
}

/// `session` in version 3, with twenty rounds.
pub fn third_session() -> &'static str {
    "version = 3\nid = \"0011223344556677\"\nrounds = 20\nlife = 4\ncap = 4\n\
    per_round = 8\nfanout = 1\nport = 20000\ntick_ms = 20\nlms = 6\nots = 4\n\
    key = \"00000006000000048d1e3644fdcc75d960cb49ec94696848dd05823833a56f5ac63061df7770db1bfbc282df417853c4907357eccb7c925f\"\n\n[[peer]]\n\
    key = \"00000006000000042ef17295b2b2463d8d9beef9c2b84a153262ffbbedd3314d59ffebcd595202b00e84ed977495ad7ce89a0968f687295f\"\n\
    anchor = \"6df554ef86729fa16a7e7e7996a5e105d97d623da5cdba1136ff9076f604ac2c\"\n\n[[peer]]\n\
    key = \"0000000600000004d87398929b1937843f54974546a2b8d69b190ddc534c8aa140c0cb0e6ff6b6ad588117979b2c07fdc2c8b5349e811f42\"\n\
    anchor = \"83269f0d2fe4bcfce159a9d89a00754a4c4d48d420faf98b712391837722eab5\"\n"
}

/// `session` with types whose hash chains are short.
pub fn session_of_short_chains() -> &'static str {
    "version = 1\nid = \"0011223344556677\"\nrounds = 10\nlife = 4\ncap = 4\n\
    per_round = 8\nfanout = 1\nport = 20000\ntick_ms = 20\nlms = 6\nots = 1\n\
    key = \"00000006000000018d1e3644fdcc75d960cb49ec946968481554a91f1289fa02a0336e795ad4b25490e95e447533fc4da8ff8806af933922\"\n\n[[peer]]\n\
    key = \"00000006000000012ef17295b2b2463d8d9beef9c2b84a1588e44acc6e2efaa4ccc770a8e5c237a6264b1ba299000f8607cc9b43de9271c5\"\n\
    anchor = \"0f6658ab7e90dda684f49951ffa7345a50488289b1681527c9b1fba610ef4502\"\n\n[[peer]]\n\
    key = \"0000000600000001d87398929b1937843f54974546a2b8d69290230c2d8089b9aee1c81336271d5c67dd566098385c583070d2ad05ddd8b1\"\n\
    anchor = \"22d984a93475a329dd35bccd254007ee8d81f582aaf64ee95e3bfea93bfbea63\"\n"
}

/// `session` with one round and a small tree, whose keys are fast to make.
pub fn small_session() -> &'static str {
    "version = 1\nid = \"0011223344556677\"\nrounds = 1\nlife = 4\ncap = 4\n\
    per_round = 8\nfanout = 1\nport = 20000\ntick_ms = 20\nlms = 5\nots = 4\n\
    key = \"00000005000000048d1e3644fdcc75d960cb49ec9469684855d80022f946f6a3fe6e69fd38c4e6da8abc3355c589089eab49998762e7de01\"\n\n[[peer]]\n\
    key = \"00000005000000042ef17295b2b2463d8d9beef9c2b84a15d83df9a99f5b121d9021a8715332dcdcbc69f029b3dced28192a8c46128f3ed3\"\n\
    anchor = \"5d6a62cf004c1b80701330f5616ac970374c1888c96a47915e57cf54d60241f9\"\n\n[[peer]]\n\
    key = \"0000000500000004d87398929b1937843f54974546a2b8d6d2221cbe51c92bd40c40c2996d8e8adf1ba5f6298bd1b7957edb7d343317f01c\"\n\
    anchor = \"4d31893edc44a4dcff2b4a2837c85d4dd4385677072cca05466f250426f8080d\"\n"
}

/// A session of five peers and one round. The peers' secrets are 32 times the bytes 8, 9, 14, 10 and 11. In round 1 the partner of peers 1,
/// 2 and 3 for a balanced exchange is peer 5, and that of peer 4 is peer 3.
pub fn session_of_five() -> &'static str {
    "version = 1\nid = \"0011223344556677\"\nrounds = 1\nlife = 4\ncap = 4\n\
    per_round = 8\nfanout = 1\nport = 20000\ntick_ms = 20\nlms = 5\nots = 4\n\
    key = \"00000005000000048d1e3644fdcc75d960cb49ec9469684855d80022f946f6a3fe6e69fd38c4e6da8abc3355c589089eab49998762e7de01\"\n\n[[peer]]\n\
    key = \"00000005000000042ef17295b2b2463d8d9beef9c2b84a15d83df9a99f5b121d9021a8715332dcdcbc69f029b3dced28192a8c46128f3ed3\"\n\
    anchor = \"5d6a62cf004c1b80701330f5616ac970374c1888c96a47915e57cf54d60241f9\"\n\n[[peer]]\n\
    key = \"0000000500000004d87398929b1937843f54974546a2b8d6d2221cbe51c92bd40c40c2996d8e8adf1ba5f6298bd1b7957edb7d343317f01c\"\n\
    anchor = \"4d31893edc44a4dcff2b4a2837c85d4dd4385677072cca05466f250426f8080d\"\n\n[[peer]]\n\
    key = \"0000000500000004e7e1fce57ad8ab6975b9dbc5e72d8fc2bc0b07b4ed39e6e521afc84e2cf2de12f18d1e1d7723179d4e178acdc377cd3f\"\n\
    anchor = \"a336fa6a86ef964081d3de3e6a20e34b943f3ab73ca47c6d8722e59f333d4df3\"\n\n[[peer]]\n\
    key = \"0000000500000004535a2ab665fbf2f1032d1928b508848ebd9023a0c3042461e10d882235cb7a28c6cac16e689ed34db581b3902ede837a\"\n\
    anchor = \"b86ba2ce4d48acb24e633688d2f8f1af9280177e8c74c46c014d43f2fe5c8973\"\n\n[[peer]]\n\
    key = \"000000050000000400f25b69c2a2809fb2ab0a129831476c31f796220783a4b008d192db1dcf7db3f665608198419dccadf6e195afeed41a\"\n\
    anchor = \"090956e79e435db6da92683eaf81afb9551fa3218473541a142fd7abd5d6a2b3\"\n"
}

/// A session of three rounds, whose types have short hash chains. The broadcaster's secret is 32 times the byte 7.
pub fn three_rounds() -> &'static str {
    "version = 1\nid = \"0011223344556677\"\nrounds = 3\nlife = 4\ncap = 4\n\
    per_round = 8\nfanout = 1\nport = 20000\ntick_ms = 20\nlms = 6\nots = 1\n\
    key = \"00000006000000018d1e3644fdcc75d960cb49ec946968481554a91f1289fa02a0336e795ad4b25490e95e447533fc4da8ff8806af933922\"\n\n[[peer]]\n\
    key = \"0000000600000001000000000000000000000000000000000000000000000000000000000000000000000000000000000000000000000001\"\n\
    anchor = \"0000000000000000000000000000000000000000000000000000000000000001\"\n\n[[peer]]\n\
    key = \"0000000600000001000000000000000000000000000000000000000000000000000000000000000000000000000000000000000000000002\"\n\
    anchor = \"0000000000000000000000000000000000000000000000000000000000000002\"\n"
}

/// A session of two peers and three rounds, whose keys have one level. The secrets are 32 times the bytes 7, 8 and 9.
pub fn session_of_one_level() -> &'static str {
    "version = 1\nid = \"0011223344556677\"\nrounds = 3\nlife = 4\ncap = 4\n\
    per_round = 8\nfanout = 1\nport = 20000\ntick_ms = 20\nlms = 6\nots = 3\n\
    key = \"00000006000000038d1e3644fdcc75d960cb49ec946968486fed0521e9cc8d85cd317318ffdcd594bc5134bee8964b80701629ade20484a1\"\n\n[[peer]]\n\
    key = \"00000006000000032ef17295b2b2463d8d9beef9c2b84a151052e349940cf343745053d2a70073ccd07a1f47c6d6092a1c34abac7744c0da\"\n\
    anchor = \"1e5d8ab3262f2e2a03341aa26349d9eb2919aa2c6a57bea0ca7b70fc1d028ef0\"\n\n[[peer]]\n\
    key = \"0000000600000003d87398929b1937843f54974546a2b8d69e55889dfe24af669664c253f8a26bf4641e705c426b54a8fe997f6141817a09\"\n\
    anchor = \"431ef8cf8b2ef49949c2d555b2d0ce7f16276f05ee1cb20f132427050554b403\"\n"
}

/// `session_of_one_level` with keys of two levels.
pub fn session_of_two_levels() -> &'static str {
    "version = 1\nid = \"0011223344556677\"\ntop = 5\nrounds = 3\nlife = 4\ncap = 4\n\
    per_round = 8\nfanout = 1\nport = 20000\ntick_ms = 20\nlms = 5\nots = 3\n\
    key = \"0000000200000005000000038d1e3644fdcc75d960cb49ec946968488268b945ed75fec49233452502738446d7c63e7a276e2de74e1394c1010bc19a\"\n\n[[peer]]\n\
    key = \"0000000200000005000000032ef17295b2b2463d8d9beef9c2b84a1507d477d934148c58a2aac8b636ed421d5d5c3b5db5599d4ed486befb6abc02f6\"\n\
    anchor = \"1e5d8ab3262f2e2a03341aa26349d9eb2919aa2c6a57bea0ca7b70fc1d028ef0\"\n\n[[peer]]\n\
    key = \"000000020000000500000003d87398929b1937843f54974546a2b8d64b1e0eb4efb1dc1e94c9b2821dcb63aa8d8be886b6bfef21823c7d90f37dd98e\"\n\
    anchor = \"431ef8cf8b2ef49949c2d555b2d0ce7f16276f05ee1cb20f132427050554b403\"\n"
}
