// Laws of texts.
ghost use Rattle.event_text.specs.Laws.{OneTextIsOneList};

/// Lists that can be read back and have one text are alike. It does nothing.
pub fn one_text_is_one_list()
    ensures { OneTextIsOneList }
{}
