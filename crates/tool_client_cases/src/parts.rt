use crate::metrics::METRICS;
use crate::texts::{given_text, named, text, word};
use aws_intercept::{
    AdditionalMetadata, BusinessMetric, ConfigMetadata, FeatureMetadata, FrameworkMetadata,
    InvalidMetadataValue,
};
use smithy_core::{AppName, InvalidAppName, Mem};
use std::alloc::{AllocError, Global};
use std::fmt;

// What an agent is given.
#[derive(Drop)]
pub enum Part {
    Metric(BusinessMetric),
    Framework(FrameworkMetadata),
    Value(AdditionalMetadata),
    Feature(FeatureMetadata),
    Config(ConfigMetadata),
    App(AppName),
}

// Prints of a framework also its name and its version.
impl fmt::Display for Part {
    fn fmt<W: fmt::Write>(&self, f: &mut fmt::Formatter<W>) -> fmt::Result {
        match self {
            Part::Metric(metric) => write!(f, "{metric:?}"),
            Part::Framework(framework) => {
                let (name, version) = (framework.name(), framework.version().unwrap_or("-"));
                write!(f, "{framework} {name} {version}")
            }
            Part::Value(value) => write!(f, "{value}"),
            Part::Feature(feature) => write!(f, "{feature}"),
            Part::Config(config) => write!(f, "{config}"),
            Part::App(name) => f.write_str(name.as_str()),
        }
    }
}

// Why words make no part.
#[derive(Clone, Copy, Debug)]
pub enum PartFault {
    InvalidMetadataValue,
    InvalidAppName,
    UnknownMetric,
    NoMemory,
}

impl From<InvalidMetadataValue> for PartFault {
    fn from(_e: InvalidMetadataValue) -> PartFault {
        PartFault::InvalidMetadataValue
    }
}

impl From<InvalidAppName> for PartFault {
    fn from(_e: InvalidAppName) -> PartFault {
        PartFault::InvalidAppName
    }
}

impl From<AllocError> for PartFault {
    fn from(_e: AllocError) -> PartFault {
        PartFault::NoMemory
    }
}

// The part of a kind that words give: those behind the first are a feature's additional values. Metadata is a copy.
pub fn part_of(alloc: Global, kind: &str, words: &[&str]) -> Result<Part, PartFault> {
    let first = word(words, 0);
    Ok(match kind {
        "framework" => Part::Framework(framework_of(alloc, first)?),
        "value" => Part::Value(additional_of(alloc, first)?),
        "feature" => Part::Feature(feature_of(alloc, words)?),
        "config" => Part::Config(config_of(alloc, first)?),
        "app" => Part::App(app_of(alloc, first)?),
        _ => Part::Metric(metric_of(alloc, first)?),
    })
}

fn metric_of(alloc: Global, name: &str) -> Result<BusinessMetric, PartFault> {
    named(alloc, &METRICS, name)?.ok_or(PartFault::UnknownMetric)
}

pub fn additional_of(alloc: Global, value: &str) -> Result<AdditionalMetadata, PartFault> {
    Ok(AdditionalMetadata::new(text(alloc, value)?)?.try_clone()?)
}

pub fn framework_of(alloc: Global, word: &str) -> Result<FrameworkMetadata, PartFault> {
    let (name, version) = name_and_version(alloc, word)?;
    Ok(FrameworkMetadata::new(name, version)?.try_clone()?)
}

fn config_of(alloc: Global, word: &str) -> Result<ConfigMetadata, PartFault> {
    let (name, version) = name_and_version(alloc, word)?;
    Ok(ConfigMetadata::new(name, version)?.try_clone()?)
}

fn feature_of(alloc: Global, words: &[&str]) -> Result<FeatureMetadata, PartFault> {
    let (name, version) = name_and_version(alloc, word(words, 0))?;
    let mut feature = FeatureMetadata::new(alloc, name, version)?;
    for value in words.iter().skip(1) {
        feature = feature.with_additional(additional_of(alloc, value)?)?;
    }
    Ok(feature.try_clone()?)
}

// The texts of `NAME VERSION` or `NAME`.
fn name_and_version(alloc: Global, word: &str) -> Mem<(String, Option<String>)> {
    let (name, version) = word.split_once(' ').unwrap_or((word, "-"));
    let version = given_text(alloc, version)?;
    Ok((text(alloc, name)?, version))
}

pub fn app_of(alloc: Global, name: &str) -> Result<AppName, PartFault> {
    Ok(AppName::new(text(alloc, name)?)?)
}
