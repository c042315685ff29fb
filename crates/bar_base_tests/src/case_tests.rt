ghost use Rattle.std.specs.Prelude.{◌≡◌, ◌<◌, ◌≤◌, Some, true, length, IfOk};
ghost use Rattle.bar_window.specs.Terms.{plain_terms};
ghost use Rattle.bar_terms.specs.Code.Windows.{AreAligned};
ghost use Rattle.bar_terms.specs.Terms.{can_promise};
ghost use Rattle.bar_case.specs.Items.{promised_len};

use crate::windows::window_with;
use bar_case::{Opening, seal, unseal};
use bar_terms::{Table, terms_ok};
use bar_window::{Blocks, Exchange, Role, Terms, UpdateId, XKind};
use sha2::{Digest, Sha256};
use std::alloc::{AllocError, Global};
use std::process::Abort;
use std::test::Fail;

const ID: [u8; 8] = [0x00, 0x11, 0x22, 0x33, 0x44, 0x55, 0x66, 0x77];

const KEY: [u8; 32] = [7; 32];

/// A source in which each update has the same block.
#[derive(Drop)]
struct Same {
    block: [u8; 1024],
}

impl Blocks for Same {
    ghost block_of = { λ s u. Some s.block };

    fn block(&self, _id: UpdateId) -> &[u8; 1024] {
        &self.block
    }
}

/// The block of the content `hi`.
fn hi() -> Same {
    let mut block = [0; 1024];
    block[1] = 2;
    block[2] = b'h';
    block[3] = b'i';
    Same { block }
}

const PUSH: Exchange = Exchange {
    round: 6,
    kind: XKind::Push,
    initiator: 1,
    responder: 2,
};

const TRADE: Exchange = Exchange {
    round: 6,
    kind: XKind::Balanced,
    initiator: 1,
    responder: 2,
};

/// The briefcase of a side under a key, in which each update has the same block.
fn sealed_under(
    alloc: Global,
    x: Exchange,
    terms: &Terms,
    role: Role,
    cap: u8,
    key: &[u8; 32],
    blocks: &Same,
) -> Result<Vec<u8>, AllocError>
    requires windows { AreAligned terms.now }
    requires valid { can_promise cap (plain_terms terms.now) ≡ true }
    requires cap { cap ≤ 16 }
    ensures { IfOk result (λ v. length v.items ≡ promised_len cap (plain_terms terms.now) role) }
{
    let mut out = vec![in alloc; 0; 20480]?;
    let len = seal(&ID, x, terms, role, cap, key, blocks, &mut out);
    out.truncate(len);
    Ok(out)
}

/// The briefcase of a side, in which each update has the block of the content `hi`.
fn sealed(
    alloc: Global,
    x: Exchange,
    terms: &Terms,
    role: Role,
    cap: u8,
) -> Result<Vec<u8>, AllocError>
    requires windows { AreAligned terms.now }
    requires valid { can_promise cap (plain_terms terms.now) ≡ true }
    requires cap { cap ≤ 16 }
    ensures { IfOk result (λ v. length v.items ≡ promised_len cap (plain_terms terms.now) role) }
{
    sealed_under(alloc, x, terms, role, cap, &KEY, &hi())
}

/// What a key shows about a briefcase, and the first block that it opens.
fn opened(
    x: Exchange,
    terms: &Terms,
    role: Role,
    cipher: &[u8],
    key: &[u8; 32],
    table: &Table,
) -> (Opening, [u8; 1024])
    requires windows { AreAligned terms.now }
    requires valid { can_promise 4 (plain_terms terms.now) ≡ true }
    requires whole { length cipher.now ≡ promised_len 4 (plain_terms terms.now) role }
{
    let mut blocks = [[0; 1024]; 16];
    let opening = unseal(&ID, x, terms, role, 4, cipher, key, table, &mut blocks);
    (opening, blocks[0])
}

/// Checks what a key showed.
fn check_opening(rt: &impl Abort, found: Opening, wanted: Opening) {
    assert_eq!(rt; found, wanted);
}

/// Whether `part` occurs at an offset of some bytes.
fn stands_at(bytes: &[u8], at: usize, part: &[u8]) -> bool {
    bytes.get(at..).unwrap_or(b"").starts_with(part)
}

/// Sealing a block of zeros gives the keystream itself.
#[test]
#[tactic(auto, using(bar_terms::proofs::Equal::terms_promise))]
fn the_keystream_is_that_of_the_standard(rt: HostRuntime) -> Result<(), Fail> {
    let terms = Terms::Balanced {
        nonce: [0; 32],
        ha: window_with(&rt, &[(3, 0)]),
        hb: window_with(&rt, &[(4, 7)]),
    };
    let table = Table::make(rt.alloc(), 10, 8)?;
    assert!(rt; terms_ok(&terms, TRADE, 4, 4, &table));
    let zeros = Same { block: [0; 1024] };
    let role = Role::Initiator;
    let cipher = sealed_under(rt.alloc(), TRADE, &terms, role, 4, &[0; 32], &zeros)?;
    // RFC 8439, A.1, the first vector.
    let first = [
        0x76, 0xb8, 0xe0, 0xad, 0xa0, 0xf1, 0x3d, 0x90, 0x40, 0x5d, 0x6a, 0xe5, 0x53, 0x86, 0xbd,
        0x28,
    ];
    assert!(rt; stands_at(&cipher, 0, &first));
    Ok(())
}

#[test]
#[tactic(auto, using(bar_terms::proofs::Equal::terms_promise))]
fn junk_opens_with_its_own_key_alone(rt: HostRuntime) -> Result<(), Fail> {
    let young = window_with(&rt, &[(5, 0), (5, 1)]);
    let terms = Terms::Push {
        young,
        aged: window_with(&rt, &[(3, 1)]),
        want: young,
        give: window_with(&rt, &[]),
        junk: 2,
    };
    let table = Table::make(rt.alloc(), 10, 8)?;
    assert!(rt; terms_ok(&terms, PUSH, 4, 4, &table));
    let cipher = sealed(rt.alloc(), PUSH, &terms, Role::Responder, 4)?;
    assert_eq!(rt; cipher.len(), 2560);
    assert!(rt; stands_at(&cipher, 0, &[189, 171, 16, 215, 5, 128, 5, 0]));
    assert!(rt; stands_at(&cipher, 1280, &[176, 172, 206, 6, 208, 141, 58, 160]));
    let (good, _) = opened(PUSH, &terms, Role::Responder, &cipher, &KEY, &table);
    check_opening(&rt, good, Opening::Good(2));
    let mut other = KEY;
    other[0] ^= 1;
    let (bad, _) = opened(PUSH, &terms, Role::Responder, &cipher, &other, &table);
    check_opening(&rt, bad, Opening::Bad { item: 0 });
    Ok(())
}

#[test]
#[tactic(auto, using(bar_terms::proofs::Equal::terms_promise))]
fn an_update_is_told_by_its_digest(rt: HostRuntime) -> Result<(), Fail> {
    let terms = Terms::Balanced {
        nonce: [0; 32],
        ha: window_with(&rt, &[(3, 0), (3, 2), (5, 1), (5, 3)]),
        hb: window_with(&rt, &[(3, 2), (4, 7)]),
    };
    let mut table = Table::make(rt.alloc(), 10, 8)?;
    assert!(rt; terms_ok(&terms, TRADE, 4, 4, &table));
    let cipher = sealed(rt.alloc(), TRADE, &terms, Role::Initiator, 4)?;
    assert_eq!(rt; cipher.len(), 1024);
    assert!(rt; stands_at(&cipher, 0, &[244, 2, 250, 17, 87, 170, 246, 65]));
    let (unknown, block) = opened(TRADE, &terms, Role::Initiator, &cipher, &KEY, &table);
    check_opening(&rt, unknown, Opening::Unknown { item: 0 });
    assert!(rt; stands_at(&block, 0, &[0, 2, b'h', b'i', 0, 0]));
    let digest = Sha256::digest(hi().block.as_slice());
    assert!(rt; table.extend(3, &digest));
    let (good, _) = opened(TRADE, &terms, Role::Initiator, &cipher, &KEY, &table);
    check_opening(&rt, good, Opening::Good(1));
    Ok(())
}
