ghost use Rattle.std.specs.Prelude.{◌≡◌, ◌<◌, ◌++◌, ◌∷◌, [], OnOk};
ghost use Rattle.ca_script_seed.specs.Made as made;

use crate::pair::{first_slot, line};
use arrayvec::ArrayVec;
use ca_base::limits::MAX_PIECES;
use ca_base::{Key, Memory, Piece, SendOp, SendRequest};
use ca_model::Verb;
use ca_script::Line;
use rand_core::utils::NextWord;
use rand_pcg::Pcg32;

/// How many requests a consumer posts.
const REQUESTS: u32 = 200;

/// Where the region of a domain begins.
fn region_start(domain: u8) -> u64
    ensures { result ≡ made.region_start domain }
{
    0x1_0000_0000 + 16384 * u64::from(domain)
}

/// The key of region 0 of a domain, after its first registration.
fn region_key(domain: u8) -> Key
    ensures { result ≡ made.region_key domain }
{
    Key(0x100_0000 * u32::from(domain) + 1)
}

/// The list of a request.
fn list(domain: u8, length: u32) -> ArrayVec<Piece, MAX_PIECES>
    ensures { result.items ≡ made.piece domain length ∷ [] }
{
    let mut list = ArrayVec::new();
    list.push(Piece {
        address: region_start(domain) + 8192,
        key: region_key(domain),
        length,
    });
    list
}

/// What a request asks for, by the word that is drawn for it.
fn operation(domain: u8, i: u32, word: u32) -> SendOp
    ensures { result ≡ made.operation domain i word }
{
    let address = region_start(domain) + 8 * u64::from(word / 8192 % 512);
    let key = region_key(domain);
    let length = 1 + word / 4 % 2048;
    match word % 4 {
        0 => SendOp::Write {
            address,
            key,
            list: list(domain, length),
        },
        1 => SendOp::Read {
            address,
            key,
            list: list(domain, length),
        },
        2 => SendOp::FetchAdd {
            address,
            key,
            add: u64::from(i) + 1,
            list: list(domain, 8),
        },
        _ => SendOp::CmpSwap {
            address,
            key,
            compare: 0,
            swap: u64::from(i) + 1,
            list: list(domain, 8),
        },
    }
}

/// The posting of a request.
fn post(domain: u8, i: u32, word: u32) -> Verb
    ensures { result ≡ made.post domain i word }
{
    let request = SendRequest {
        id: u64::from(i),
        signalled: true,
        fence: false,
        solicited: false,
        op: operation(domain, i, word),
    };
    Verb::PostSend {
        slot: first_slot(0, domain),
        request,
    }
}

/// A wait for a completion.
fn wait(domain: u8) -> Verb
    ensures { result ≡ made.wait domain }
{
    Verb::Poll {
        slot: first_slot(0, domain),
        n: 1,
        least: 1,
    }
}

/// Adds the requests of a consumer, from this number on, each with its wait.
#[tactic(auto, using(crate::proofs::MadeLemmas::steps))]
pub(crate) fn add_requests(
    lines: &mut Vec<Line>,
    number: u32,
    seed: u64,
    domain: u8,
) -> Result<(), Memory>
    requires { number < 4096 }
    ensures { OnOk result (lines.new.items
        ≡ lines.old.items ++ made.lines_from number (made.requests domain 0 200 (made.generator seed domain))) }
{
    let mut generator = Pcg32::new(seed, u64::from(domain));
    for i in 0..REQUESTS {
        let word = generator.next_word();
        lines.push(line(number + 2 * i, post(domain, i, word)))?;
        lines.push(line(number + 2 * i + 1, wait(domain)))?;
    }
    Ok(())
}
