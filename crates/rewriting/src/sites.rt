// Laws of sites and of the shared step.
ghost use Rattle.rewriting.specs.Sites.{SitesAreListed};
ghost use Rattle.rewriting.specs.Sites.{NoSiteExactlyIfNormalForm};
ghost use Rattle.rewriting.specs.Sites.{EveryOccurrenceIsReplacedOnce};
ghost use Rattle.rewriting.specs.Sites.{SharedStepIsReached};

// The site records are those of the sites, in sheet order, with the rule and the two flags that the relations give.
pub fn sites_are_listed()
    ensures { SitesAreListed }
{}

// A tree of the card has no site exactly when no tree step leaves it.
pub fn no_site_exactly_if_normal_form()
    ensures { NoSiteExactlyIfNormalForm }
{}

// A shared step replaces every occurrence of the site, and does not look into what it put there.
pub fn every_occurrence_is_replaced_once()
    ensures { EveryOccurrenceIsReplacedOnce }
{}

// A tree reaches by tree steps what a shared step at one of its sites makes of it.
pub fn shared_step_is_reached()
    ensures { SharedStepIsReached }
{}
