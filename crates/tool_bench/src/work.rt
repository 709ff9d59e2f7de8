use crate::digest::Digest;
use crate::{
    admitting, chunked, frames, kept, operating, profiles, receiving, requests, signing, sums,
};
use std::alloc::{AllocError, Global};
use std::fmt;

/// A kind of work, with its count and the size of each piece in bytes.
#[derive(Clone, Copy, Debug, PartialEq, Eq)]
pub enum Work {
    Sign { count: u32 },
    Presign { count: u32 },
    KeptSign { count: u32 },
    Request { count: u32 },
    KeptRequest { count: u32 },
    Signer { count: u32 },
    Operation { count: u32 },
    FollowedOperation { count: u32 },
    Operate { count: u32 },
    Admit { count: u32 },
    Chain { count: u32, size: usize },
    KeptChain { count: u32, size: usize },
    Checksum { count: u32, size: usize },
    Hash { count: u32, size: usize },
    Write { count: u32, size: usize },
    Decode { count: u32 },
    Receive { count: u32 },
    Chunk { count: u32, size: usize },
    SignedChunk { count: u32, size: usize },
    ReadChunks { count: u32, size: usize },
    Profiles { count: u32 },
}

impl Work {
    /// The work that the words ask for, where they do.
    pub fn from_words(alloc: Global, words: &[String]) -> Result<Option<Vec<Work>>, AllocError> {
        match words {
            [kind, count] if kind.as_str() == "each" => match count.as_str().parse::<u32>() {
                Ok(count) => Ok(Some(Work::each(alloc, count)?)),
                Err(_) => Ok(None),
            },
            _ => match Work::one(words) {
                Some(work) => Ok(Some(vec![in alloc; work]?)),
                None => Ok(None),
            },
        }
    }

    // Each kind, with small sizes.
    fn each(alloc: Global, count: u32) -> Result<Vec<Work>, AllocError> {
        let works = vec![in alloc;
            Work::Sign { count },
            Work::Presign { count },
            Work::KeptSign { count },
            Work::Request { count },
            Work::KeptRequest { count },
            Work::Signer { count },
            Work::Operation { count },
            Work::FollowedOperation { count },
            Work::Operate { count },
            Work::Admit { count },
            Work::Chain { count, size: 100 },
            Work::KeptChain { count, size: 100 },
            Work::Checksum { count, size: 100 },
            Work::Hash { count, size: 100 },
            Work::Write { count, size: 100 },
            Work::Decode { count },
            Work::Receive { count },
            Work::Chunk { count, size: 100 },
            Work::SignedChunk { count, size: 100 },
            Work::ReadChunks { count, size: 100 },
            Work::Profiles { count },
        ]?;
        Ok(works)
    }

    fn one(words: &[String]) -> Option<Work> {
        match words {
            [kind, count] => Work::counted(kind.as_str(), count.as_str().parse().ok()?),
            [kind, count, size] => Work::sized(
                kind.as_str(),
                count.as_str().parse().ok()?,
                size.as_str().parse().ok()?,
            ),
            _ => None,
        }
    }

    fn counted(kind: &str, count: u32) -> Option<Work> {
        match kind {
            "sign" => Some(Work::Sign { count }),
            "presign" => Some(Work::Presign { count }),
            "kept-sign" => Some(Work::KeptSign { count }),
            "request" => Some(Work::Request { count }),
            "kept-request" => Some(Work::KeptRequest { count }),
            "signer" => Some(Work::Signer { count }),
            "operation" => Some(Work::Operation { count }),
            "followed-operation" => Some(Work::FollowedOperation { count }),
            "operate" => Some(Work::Operate { count }),
            "admit" => Some(Work::Admit { count }),
            "decode" => Some(Work::Decode { count }),
            "receive" => Some(Work::Receive { count }),
            "profiles" => Some(Work::Profiles { count }),
            _ => None,
        }
    }

    fn sized(kind: &str, count: u32, size: usize) -> Option<Work> {
        match kind {
            "chain" => Some(Work::Chain { count, size }),
            "kept-chain" => Some(Work::KeptChain { count, size }),
            "checksum" => Some(Work::Checksum { count, size }),
            "hash" => Some(Work::Hash { count, size }),
            "write" => Some(Work::Write { count, size }),
            "chunk" => Some(Work::Chunk { count, size }),
            "signed-chunk" => Some(Work::SignedChunk { count, size }),
            "read-chunks" => Some(Work::ReadChunks { count, size }),
            _ => None,
        }
    }

    /// Does the work, and gives the digest of the answers.
    pub fn answers(self, alloc: Global) -> anyhow::Result<Digest> {
        match self {
            Work::Sign { count } => signing::signatures(alloc, count),
            Work::Presign { count } => signing::presignatures(alloc, count),
            Work::KeptSign { count } => kept::signatures(alloc, count),
            Work::Request { count } => requests::by_parameters(alloc, count),
            Work::KeptRequest { count } => requests::by_key(alloc, count),
            Work::Signer { count } => requests::by_signer(alloc, count),
            Work::Operation { count } => signing::operations(alloc, count),
            Work::FollowedOperation { count } => signing::followed_operations(alloc, count),
            Work::Operate { count } => operating::operations(alloc, count),
            Work::Admit { count } => admitting::admissions(alloc, count),
            Work::Chain { count, size } => signing::chain(alloc, count, size),
            Work::KeptChain { count, size } => kept::chain(alloc, count, size),
            Work::Checksum { count, size } => Ok(sums::checksums(alloc, count, size)?),
            Work::Hash { count, size } => Ok(sums::hashes(alloc, count, size)?),
            Work::Write { count, size } => frames::written(alloc, count, size),
            Work::Decode { count } => frames::decoded(alloc, count),
            Work::Receive { count } => receiving::received(alloc, count),
            Work::Chunk { count, size } => chunked::unsigned(alloc, count, size),
            Work::SignedChunk { count, size } => chunked::signed(alloc, count, size),
            Work::ReadChunks { count, size } => chunked::read(alloc, count, size),
            Work::Profiles { count } => profiles::parsed(alloc, count),
        }
    }
}

impl fmt::Display for Work {
    fn fmt<W: fmt::Write>(&self, f: &mut fmt::Formatter<W>) -> fmt::Result {
        match self {
            Work::Sign { count } => write!(f, "sign {count}"),
            Work::Presign { count } => write!(f, "presign {count}"),
            Work::KeptSign { count } => write!(f, "kept-sign {count}"),
            Work::Request { count } => write!(f, "request {count}"),
            Work::KeptRequest { count } => write!(f, "kept-request {count}"),
            Work::Signer { count } => write!(f, "signer {count}"),
            Work::Operation { count } => write!(f, "operation {count}"),
            Work::FollowedOperation { count } => write!(f, "followed-operation {count}"),
            Work::Operate { count } => write!(f, "operate {count}"),
            Work::Admit { count } => write!(f, "admit {count}"),
            Work::Chain { count, size } => write!(f, "chain {count} {size}"),
            Work::KeptChain { count, size } => write!(f, "kept-chain {count} {size}"),
            Work::Checksum { count, size } => write!(f, "checksum {count} {size}"),
            Work::Hash { count, size } => write!(f, "hash {count} {size}"),
            Work::Write { count, size } => write!(f, "write {count} {size}"),
            Work::Decode { count } => write!(f, "decode {count}"),
            Work::Receive { count } => write!(f, "receive {count}"),
            Work::Chunk { count, size } => write!(f, "chunk {count} {size}"),
            Work::SignedChunk { count, size } => write!(f, "signed-chunk {count} {size}"),
            Work::ReadChunks { count, size } => write!(f, "read-chunks {count} {size}"),
            Work::Profiles { count } => write!(f, "profiles {count}"),
        }
    }
}
