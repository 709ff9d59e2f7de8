//! What no service takes, and what a signer answers to it.
use aws_signing::{Credentials, Global, Moment, Result, Signer};

const OBJECT: &str = "https://examplebucket.s3.amazonaws.com/test.txt";

const PRESIGNED: &str = "https://examplebucket.s3.amazonaws.com/test.txt?X-Amz-Signature=aeeed9bb";

/// Appends why there is no signer by an empty text, and which URLs aren't presigned.
pub fn push_all(alloc: Global, text: &mut String, at: Moment) -> anyhow::Result<()> {
    push_outcome(text, signer_by(alloc, "", "s", "us-east-1", "s3"))?;
    push_outcome(text, signer_by(alloc, "AKIDEXAMPLE", "", "us-east-1", "s3"))?;
    push_outcome(text, signer_by(alloc, "AKIDEXAMPLE", "s", "", "s3"))?;
    push_outcome(text, signer_by(alloc, "AKIDEXAMPLE", "s", "us-east-1", ""))?;
    let mut signer = signer_by(alloc, "AKIDEXAMPLE", "s", "us-east-1", "s3")?;
    push_outcome(text, signer.presign("GET", OBJECT, 0, at))?;
    push_outcome(text, signer.presign("GET", OBJECT, 604_800, at))?;
    push_outcome(text, signer.presign("GET", OBJECT, 604_801, at))?;
    push_outcome(text, signer.presign("GET", PRESIGNED, 900, at))?;
    text.push('\n')?;
    Ok(())
}

// A signer by these texts.
fn signer_by(
    alloc: Global,
    key_id: &str,
    secret: &str,
    region: &str,
    name: &str,
) -> Result<Signer> {
    let key_id = String::from_str(alloc, key_id)?;
    let secret = String::from_str(alloc, secret)?;
    Signer::new(
        alloc,
        &Credentials::new(key_id, secret, None, None),
        region,
        name,
    )
}

// Why there is none, where there is none.
fn push_outcome<T: Drop>(text: &mut String, made: Result<T>) -> anyhow::Result<()> {
    match made {
        Ok(_) => text.push_str("signed\n")?,
        Err(error) => write!(text, "{error}\n")?,
    }
    Ok(())
}
