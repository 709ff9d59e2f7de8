ghost use Rattle.std.specs.Prelude.{◌≡◌, None, OnOk, IfOk, option_copied};
ghost use Rattle.env_config.specs.Raw.{properties_of};
ghost use Rattle.env_config.specs.SectionsSink.{StandsForSections, with_open};
ghost use Rattle.env_config.specs.Texts.{nothing_named, put_named};

use crate::raw_sections::RawSections;
use crate::reader::Sink;
use crate::texts::Texts;
use smithy_core::Mem;
use std::alloc::Global;
use std::mem;

/// Keeps the sections and all of their properties.
///
/// Those of the section that is open stand apart from the others, so that a property costs no search for its section.
#[derive(Drop)]
pub struct SectionsSink<'t> {
    sections: RawSections<'t>,
    name: Option<&'t str>,
    properties: Texts,
}

impl<'t> SectionsSink<'t> {
    /// No sections.
    pub fn new(alloc: Global) -> SectionsSink<'t>
        ensures { StandsForSections result None nothing_named }
    {
        SectionsSink {
            sections: RawSections::new(alloc),
            name: None,
            properties: Texts::new(alloc),
        }
    }

    /// The sections, where the text is over.
    pub fn into_sections(mut self, alloc: Global) -> Mem<RawSections<'t>>
        ensures { IfOk result (λ sections. sections ≡ with_open self.entry.sections (option_copied self.entry.name) self.entry.properties) }
    {
        self.close(alloc)?;
        Ok(self.sections)
    }

    // The section that is open stands among the others.
    fn close(&mut self, alloc: Global) -> Mem<()>
        ensures { OnOk result (self.new.sections ≡ with_open self.old.sections (option_copied self.old.name) self.old.properties) }
    {
        if let Some(name) = self.name {
            let properties = mem::replace(&mut self.properties, Texts::new(alloc));
            self.sections.replace(name, properties)?;
        }
        Ok(())
    }

    // The properties of the section, to go on with.
    fn take_properties(&mut self, alloc: Global, name: &str) -> Texts
        ensures { put_named self.new.sections name.now result ≡ put_named self.old.sections name.now (properties_of self.old.sections name.now) }
    {
        let before = self.sections.take(name, Texts::new(alloc));
        before.unwrap_or(Texts::new(alloc))
    }
}

impl<'t> Sink<'t> for SectionsSink<'t> {
    ghost use Rattle.env_config.specs.SectionsSink.{StandsForSections};

    ghost stands = { λ sink _ at sections. StandsForSections sink at sections };

    fn open(&mut self, alloc: Global, name: &'t str) -> Mem<()> {
        self.close(alloc)?;
        self.properties = self.take_properties(alloc, name);
        self.name = Some(name);
        Ok(())
    }

    fn put(&mut self, key: String, value: String) -> Mem<()> {
        self.properties.put(key, value)
    }
}
