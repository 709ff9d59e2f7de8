//! A service's door: who signed a request.
ghost use Rattle.std.specs.Prelude.{◌≡◌, ◌⊎◌, Result, MatchResult, true, false, length, map, string_bytes};
ghost use Rattle.std.specs.Int.{w64, saturate_signed};
ghost use Rattle.std.specs.List.{list_all};
ghost use Rattle.smithy_core.specs.TextPairs.{first_place, first_value};
ghost use Rattle.firuvaik_c.specs.Admitting.{AdmitsLent, AnswersEntry, IsLentRequest, LendsEntry, DescribesEntry, door_fault, is_text_key, is_text_request, key_pair, part_number, payload_number, place_number};
ghost use Rattle.firuvaik_c.specs.Asked.{moment_at, service_settings};
ghost use Rattle.firuvaik_c.specs.Faults.{no_memory, not_text};
ghost use Rattle.firuvaik_c.specs.declared.door.Entry.{Entry};
ghost use Rattle.firuvaik_c.specs.declared.fault.Fault.{Fault};

use crate::answer::{Answer, Made, lend_signed, refuse};
use crate::asked::{has_flag, service_settings};
use crate::fault::{Fault, placed, plain};
use crate::lent::{KEEP_PATH, Key, Request, SHA256_HEADER, SINGLE_ENCODE, Service, UNSIGNED_TOKEN};
use crate::texts::{headers_of, text_of};
use presign_check::PresignPart;
use request_door::{Admitted, DoorFault, DoorPayload, KeyList, Limits, admit};
use sigv4::SignatureLocation;
use smithy_core::{HttpRequest, Moment};
use std::alloc::Global;

// The flags that a service doesn't have.
const OTHER_FLAGS: u32 = !(SINGLE_ENCODE | KEEP_PATH | SHA256_HEADER | UNSIGNED_TOKEN);

// How many headers may be signed.
const MOST_NAMES: usize = 100;

/// What a service learns of a request that it lets in.
#[repr(C)]
#[derive(Clone, Copy)]
pub struct Admission {
    /// The index of the key that signed it, counted from 0.
    pub key: usize,
    /// The second at which it was signed.
    pub at: i64,
    /// The first second in which it isn't good any more.
    pub until: i64,
    /// Where its signature stands: 0 in headers, 1 in the query.
    pub place: u32,
    /// What was signed of the payload: 0 its digest, 1 nothing of it, 2 nothing of its chunks, 3 each chunk or message after the one
    /// before it.
    pub payload: u32,
}

/// Says who signed a request that a service lets in at a second, and else the first test that it doesn't pass.
///
/// The text that is written has the names of the signed headers, with `;` between. It, what is told and the signature, from which signed
/// chunks go on, are written where the text fits the room, and else nothing is.
#[unsafe(no_mangle)]
pub extern "C" fn firuvaik_admit(
    alloc: Global,
    service: &Service<'_>,
    request: &Request<'_>,
    seconds: i64,
    admission: &mut Admission,
    signature: &mut [u8; 64],
    names: &mut [u8],
) -> Answer
    ensures { (made : Result Entry Fault) × AdmitsLent service.now request.now seconds made
        × LendsEntry made admission.old admission.new signature.old signature.new names.old names.new result }
{
    let made = admitted(alloc, service, request, seconds);
    lend_entry(made, admission, signature, names)
}

// What is handed out of a request that is let in.
#[derive(Drop)]
struct Entry {
    admission: Admission,
    made: Made,
}

fn lend_entry(
    made: Result<Entry, Fault>,
    admission: &mut Admission,
    signature: &mut [u8; 64],
    names: &mut [u8],
) -> Answer
    ensures { LendsEntry made admission.old admission.new signature.old signature.new names.old names.new result }
{
    match made {
        Ok(entry) => {
            let described = entry.admission;
            let answer = lend_signed(Ok(entry.made), signature, names);
            if answer.status == 0 {
                *admission = described;
            }
            answer
        }
        Err(fault) => refuse(fault),
    }
}

fn admitted(
    alloc: Global,
    service: &Service<'_>,
    request: &Request<'_>,
    seconds: i64,
) -> Result<Entry, Fault>
    ensures { AdmitsLent service.now request.now seconds result }
{
    if has_flag(service.flags, OTHER_FLAGS) {
        return Err(plain(4));
    }
    let region = text_of(service.region)?;
    let name = text_of(service.name)?;
    let sent = request_of(alloc, request)?;
    let keys = keys_of(alloc, service.keys)?;
    answered(
        alloc,
        service,
        region,
        name,
        &keys,
        &sent,
        request.body,
        seconds,
    )
}

// The request that was lent. Its body stays with the caller.
fn request_of(alloc: Global, lent: &Request<'_>) -> Result<HttpRequest, Fault>
    ensures { MatchResult result
        (λ sent. (is_text_request lent.now ≡ true) × IsLentRequest lent.now sent)
        (λ fault. ((is_text_request lent.now ≡ false) × (fault ≡ not_text)) ⊎ (fault ≡ no_memory)) }
{
    let method = text_of(lent.method)?;
    let target = text_of(lent.target)?;
    let headers = headers_of(alloc, lent.headers)?;
    let mut sent = HttpRequest::new(alloc, method, target)?;
    sent.headers = headers;
    Ok(sent)
}

// Copies of the keys, where they are texts.
#[tactic(auto, using(std::proofs::lemmas::List::Folds::list_all_more, std::proofs::lemmas::List::Folds::list_all_at))]
fn keys_of(alloc: Global, lent: &[Key<'_>]) -> Result<KeyList, Fault>
    ensures { MatchResult result
        (λ keys. (list_all is_text_key lent.now ≡ true) × (keys ≡ map key_pair lent.now))
        (λ fault. ((list_all is_text_key lent.now ≡ false) × (fault ≡ not_text)) ⊎ (fault ≡ no_memory)) }
{
    let mut keys = KeyList::new(alloc);
    for key in lent {
        let id = text_of(key.id)?;
        let secret = text_of(key.secret)?;
        keys.push(id, secret)?;
    }
    Ok(keys)
}

// What the service answers, of a region and a name and with these keys.
fn answered(
    alloc: Global,
    service: &Service<'_>,
    region: &str,
    name: &str,
    keys: &KeyList,
    sent: &HttpRequest,
    body: &[u8],
    seconds: i64,
) -> Result<Entry, Fault>
    requires { keys.now ≡ map key_pair service.now.keys.now }
    ensures { AnswersEntry (record {
      request = sent.now;
      body = body.now;
      settings = service_settings service.now.flags;
      region = region.now;
      name = name.now;
      secrets = first_value keys.now;
      now = moment_at seconds;
      limits = record { skew = service.now.skew; expiry = service.now.expiry; names = 100 };
    }) service.now.keys.now result }
{
    let settings = service_settings(alloc, service.flags)?;
    let limits = Limits {
        skew: service.skew,
        expiry: u64::from(service.expiry),
        names: MOST_NAMES,
    };
    let now = Moment::new(seconds, 0);
    match admit(
        alloc, sent, body, &settings, region, name, keys, now, &limits,
    ) {
        Ok(admitted) => Ok(entry_of(admitted, service.keys)),
        Err(fault) => Err(door_fault(fault)),
    }
}

fn entry_of(admitted: Admitted, keys: &[Key<'_>]) -> Entry
    requires { length (string_bytes admitted.signature) ≡ 64 }
    ensures { DescribesEntry keys.now admitted result }
{
    let mut signature = [0; 64];
    signature.copy_from_slice(admitted.signature.as_bytes());
    Entry {
        admission: Admission {
            key: key_index(keys, admitted.key_id.as_str()),
            at: admitted.at.secs(),
            until: nearest(admitted.until),
            place: place_number(admitted.place),
            payload: payload_number(admitted.payload),
        },
        made: Made {
            text: admitted.names.into_bytes(),
            signature,
        },
    }
}

// The index of the first key with this id, or the number of keys.
fn key_index(keys: &[Key<'_>], id: &str) -> usize
    ensures { result ≡ first_place (map key_pair keys.now) id.now }
{
    for (index, key) in keys.iter().enumerate() {
        if key.id == id.as_bytes() {
            return index;
        }
    }
    keys.len()
}

// The nearest number of 64 bits.
fn nearest(wide: i128) -> i64
    ensures { result ≡ saturate_signed w64 wide }
{
    match i64::try_from(wide) {
        Ok(number) => number,
        Err(_) if wide < 0 => i64::MIN,
        Err(_) => i64::MAX,
    }
}

fn place_number(place: SignatureLocation) -> u32
    ensures { result ≡ place_number place }
{
    match place {
        SignatureLocation::Headers => 0,
        SignatureLocation::QueryParams => 1,
    }
}

fn payload_number(payload: DoorPayload) -> u32
    ensures { result ≡ payload_number payload }
{
    match payload {
        DoorPayload::Digest => 0,
        DoorPayload::Unsigned => 1,
        DoorPayload::UnsignedChunks => 2,
        DoorPayload::SignedChunks => 3,
    }
}

// The fault of a refusal.
fn door_fault(fault: DoorFault) -> Fault
    ensures { result ≡ door_fault fault }
{
    match fault {
        DoorFault::InvalidTarget => plain(6),
        DoorFault::InvalidHeader => plain(60),
        DoorFault::BothForms => plain(61),
        DoorFault::NoForm => plain(62),
        DoorFault::Missing(part) => placed(63, part_number(part)),
        DoorFault::Repeated(part) => placed(64, part_number(part)),
        DoorFault::OtherAlgorithm => plain(65),
        DoorFault::Malformed => plain(66),
        DoorFault::BadDate => plain(67),
        DoorFault::BadCredential => plain(68),
        DoorFault::OtherService => plain(69),
        DoorFault::OtherRegion => plain(70),
        DoorFault::OtherDay => plain(71),
        DoorFault::BadExpiry => plain(72),
        DoorFault::LongExpiry => plain(73),
        DoorFault::TooManyNames => plain(74),
        DoorFault::BadNames => plain(75),
        DoorFault::AbsentHeader => plain(76),
        DoorFault::UnsignedHost => plain(77),
        DoorFault::UnsignedHeader => plain(78),
        DoorFault::TooEarly => plain(79),
        DoorFault::TooLate => plain(80),
        DoorFault::RepeatedPayload => plain(81),
        DoorFault::BadPayload => plain(82),
        DoorFault::UnknownKey => plain(83),
        DoorFault::OtherPayload => plain(84),
        DoorFault::Mismatch => plain(85),
        DoorFault::NoMemory => plain(2),
    }
}

// The number of a part of a signature.
fn part_number(part: PresignPart) -> usize
    ensures { result ≡ part_number part }
{
    match part {
        PresignPart::Algorithm => 1,
        PresignPart::Credential => 2,
        PresignPart::Date => 3,
        PresignPart::Expires => 4,
        PresignPart::SignedHeaders => 5,
        PresignPart::Signature => 6,
    }
}
