//! Tests of key texts and key files of two levels. The session, keys and anchors were made by an independent program.

use crate::hex_bytes::bytes;
use bar_hss::{HssKeyFile, hss_key_text};
use bar_roster::Session;
use bar_seal::Scheme;
use std::process::Abort;
use std::test::Fail;

const SESSION: &str = "version = 1
id = \"cec7978507ff0bdc\"
top = 5
rounds = 12
life = 4
cap = 5
per_round = 6
fanout = 1
port = 20000
tick_ms = 50
lms = 5
ots = 4
key = \"0000000200000005000000040f6f928ae3ea282f8ba2c3c5bf3a42b6582311530d42ad44a9311041d504f4345a0ac83690e33d45cc811af729079b97\"

[[peer]]
key = \"00000002000000050000000475c0fb3a123115b11702c6b6950cbd3b365c39d6aef5022de242573dcb56569b7adb86ba235912fd74aeec4399bc6b87\"
anchor = \"18ca5046f09339244042130a73974747e1a473cde04b55e074cd6ac499e87f3b\"

[[peer]]
key = \"000000020000000500000004bfc2aed22b915a674560f9f8d76ba87511d9df477b09598279bb9c5aa6e997418f87edc750837c83c1a051e751179776\"
anchor = \"c06779d528f7ce81273fd7ce060b5927e6d19fc690b0622bf24ac5b9f0279001\"
";

const ID: &str = "cec7978507ff0bdc";

const CASTER_TEXT: &str = "version = 1
id = \"cec7978507ff0bdc\"
party = 0
rounds = 12
lms = 5
ots = 4
top = 5
secret = \"323648af56664478316caa721ef1b386cc17be36b14d568c8de37de115c8e186\"
spent = false
";

const CASTER_SECRET: &str = "323648af56664478316caa721ef1b386cc17be36b14d568c8de37de115c8e186";

const PEER_TEXT: &str = "version = 1
id = \"cec7978507ff0bdc\"
party = 1
rounds = 12
lms = 5
ots = 4
top = 5
secret = \"a395f5a16802dca59fa7a4d144ebda1d1cf85005ca2961673346126d7d5db3e3\"
spent = false
";

const PEER_SECRET: &str = "a395f5a16802dca59fa7a4d144ebda1d1cf85005ca2961673346126d7d5db3e3";

const ANCHOR: &str = "18ca5046f09339244042130a73974747e1a473cde04b55e074cd6ac499e87f3b";

#[test]
fn the_broadcasters_key_text_of_two_levels_has_nine_lines(rt: HostRuntime) -> Result<(), Fail> {
    let (id, secret) = (bytes::<8>(ID)?, bytes::<32>(CASTER_SECRET)?);
    let text = hss_key_text(rt.alloc(), 0, &id, 12, 5, 4, &secret, false)?;
    assert_eq!(rt; text.as_slice(), CASTER_TEXT.as_bytes());
    Ok(())
}

/// Checks what the key file of the peer holds.
fn check_file(rt: &impl Abort, file: &HssKeyFile, session: &Session) -> Result<(), Fail> {
    let (id, secret) = (bytes::<8>(ID)?, bytes::<32>(PEER_SECRET)?);
    let secrets = &file.secrets;
    assert!(rt; secrets.party == 1 && secrets.id == id && secrets.secret == secret);
    assert!(rt; file.chain.anchor() == bytes::<32>(ANCHOR)?);
    let peers = session.shape().peers;
    assert!(rt; 1 <= peers);
    assert!(rt; file.signer.public().as_slice() == session.key(1));
    Ok(())
}

#[test]
fn a_key_file_of_two_levels_has_its_key_and_anchor(rt: HostRuntime) -> Result<(), Fail> {
    let alloc = rt.alloc();
    let session = Session::read(alloc, SESSION.as_bytes())?;
    assert!(rt; session.top().is_some());
    let file = HssKeyFile::read(alloc, PEER_TEXT.as_bytes(), &session, false, true)?;
    check_file(&rt, &file, &session)
}
