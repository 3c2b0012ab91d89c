// The writer.
ghost use Rattle.std.specs.Prelude.{◌≡◌, ◌≤◌, ◌++◌, length, option_copied};
ghost use Rattle.messages.specs.Write.{largest_identity, carried_fine, tft_fine, longest_tft, writable_by, value_of, front_of, unwritten_number, message_number, write_of, fields_of};
ghost use Rattle.messages.specs.Inner.Walk.{put_of, padded};

use crate::layout::{Carries, DISCRIMINATOR, Kind, Mandatory, TFT_IDENTIFIER};

const LARGEST_IDENTITY: u8 = 15;

const LONGEST_TFT: usize = 255;

// "QoS is written as the one octet 09 (house)"
const QOS_OCTETS: u8 = 1;

const QOS: u8 = 9;

// All that is written before the TFT's value, at most.
const FRONT_OCTETS: usize = 7;

#[derive(Clone, Copy, PartialEq, Eq)]
pub enum MessageUnwritten {
    Unreadable,
    NoRoom,
}

// A message with its TFT's value; a `Message` tells where that stands.
#[derive(Clone, Copy)]
pub(crate) struct Fields<'a> {
    pub kind: Kind,
    pub bearer: u8,
    pub transaction: u8,
    pub tft: Option<&'a [u8]>,
}

// The octets up to the TFT's value, zero beyond the count: how many they are goes by the kind, and no layer has a heap.
#[derive(Clone, Copy)]
pub struct Front {
    pub count: usize,
    pub octets: [u8; FRONT_OCTETS],
}

impl MessageUnwritten {
    pub fn number(self) -> u8
        ensures { result ≡ unwritten_number self }
    {
        match self {
            MessageUnwritten::Unreadable => 15,
            MessageUnwritten::NoRoom => 9,
        }
    }
}

// 0 where it was written.
pub fn message_number(written: Result<usize, MessageUnwritten>) -> u8
    ensures { result ≡ message_number written }
{
    match written {
        Ok(_) => 0,
        Err(why) => why.number(),
    }
}

fn carried_fine(mandatory: Mandatory, carried: u8) -> bool
    ensures { result ≡ carried_fine mandatory carried }
{
    match mandatory {
        Mandatory::Nothing | Mandatory::Cause => true,
        Mandatory::Activation => carried <= LARGEST_IDENTITY,
    }
}

fn tft_fine(carries: Carries, tft: Option<&[u8]>) -> bool
    ensures { result ≡ tft_fine carries (option_copied tft.entry) }
{
    match (carries, tft) {
        (Carries::Always | Carries::Maybe, Some(value)) => value.len() <= LONGEST_TFT,
        (Carries::Maybe | Carries::Never, None) => true,
        (Carries::Always, None) | (Carries::Never, Some(_)) => false,
    }
}

fn is_writable(fields: Fields) -> bool
    ensures { result ≡ writable_by fields.entry.kind fields.entry.bearer (option_copied fields.entry.tft) }
{
    let row = fields.kind.row();
    // `&`, since no test costs more than a branch.
    (fields.bearer <= LARGEST_IDENTITY)
        & carried_fine(row.mandatory, fields.kind.carried())
        & tft_fine(row.tft, fields.tft)
}

// The front and the value behind it, where the buffer has room for both.
fn put_parts(front: &[u8], value: &[u8], buffer: &mut [u8]) -> Result<usize, MessageUnwritten>
    ensures { (result ≡ (put_of (front.now ++ value.now) buffer.old).written)
        × (buffer.new ≡ (put_of (front.now ++ value.now) buffer.old).buffer) }
{
    let end = front.len() + value.len();
    if buffer.len() < end {
        return Err(MessageUnwritten::NoRoom);
    }
    buffer[..front.len()].copy_from_slice(front);
    if !value.is_empty() {
        buffer[front.len()..end].copy_from_slice(value);
    }
    Ok(end)
}

// The octets before the TFT's value, and this value behind them. Each arm puts its own: a front whose length is known is stored octet by octet, one of any
// length is copied by a call.
fn put_fields(fields: Fields, value: &[u8], buffer: &mut [u8]) -> Result<usize, MessageUnwritten>
    requires { (fields.bearer ≤ largest_identity) × (length (value_of (option_copied fields.tft)) ≤ longest_tft) }
    ensures { (result ≡ (put_of (front_of (fields_of fields.entry.kind fields.entry.bearer fields.entry.transaction (option_copied fields.entry.tft)) ++ value.now) buffer.old).written)
        × (buffer.new ≡ (put_of (front_of (fields_of fields.entry.kind fields.entry.bearer fields.entry.transaction (option_copied fields.entry.tft)) ++ value.now) buffer.old).buffer) }
{
    let Fields {
        kind,
        bearer,
        transaction,
        tft,
    } = fields;
    let row = kind.row();
    let head = bearer * 16 + DISCRIMINATOR;
    let octet = row.octet;
    match (row.mandatory, tft) {
        (Mandatory::Nothing, None) => put_parts(&[head, transaction, octet], value, buffer),
        (Mandatory::Nothing, Some(tft)) => put_parts(
            &[head, transaction, octet, TFT_IDENTIFIER, tft.len() as u8],
            value,
            buffer,
        ),
        (Mandatory::Cause, _) => put_parts(
            &[head, transaction, octet, kind.carried()],
            value,
            buffer,
        ),
        (Mandatory::Activation, tft) => put_parts(
            &[
                head,
                transaction,
                octet,
                kind.carried(),
                QOS_OCTETS,
                QOS,
                tft.unwrap_or(&[]).len() as u8,
            ],
            value,
            buffer,
        ),
    }
}

// The octets before the TFT's value.
pub(crate) fn front_of(fields: Fields) -> Front
    requires { (fields.bearer ≤ largest_identity) × (length (value_of (option_copied fields.tft)) ≤ longest_tft) }
    ensures { result ≡ padded (front_of (fields_of fields.entry.kind fields.entry.bearer fields.entry.transaction (option_copied fields.entry.tft))) }
{
    let mut octets = [0; FRONT_OCTETS];
    let count = put_fields(fields, &[], &mut octets).unwrap_or(0);
    Front { count, octets }
}

#[tactic(auto, using(crate::proofs::Putting::bearer_fits, crate::proofs::Putting::tft_short, crate::proofs::Putting::write_put, crate::proofs::Putting::write_unreadable), unfolding(crate::specs::Write::writable))]
pub fn write_message(
    kind: Kind,
    bearer: u8,
    transaction: u8,
    tft: Option<&[u8]>,
    buffer: &mut [u8],
) -> Result<usize, MessageUnwritten>
    ensures { (result ≡ (write_of (fields_of kind bearer transaction (option_copied tft.entry)) buffer.old).written)
        × (buffer.new ≡ (write_of (fields_of kind bearer transaction (option_copied tft.entry)) buffer.old).buffer) }
{
    let fields = Fields {
        kind,
        bearer,
        transaction,
        tft,
    };
    if !is_writable(fields) {
        return Err(MessageUnwritten::Unreadable);
    }
    put_fields(fields, tft.unwrap_or(&[]), buffer)
}
