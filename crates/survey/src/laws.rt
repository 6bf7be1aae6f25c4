//! What surveys say, each law promised by a function that does nothing.

ghost use Rattle.survey.specs.Laws.{AnAcceptedSurveySaysItsSite, ARefusedSurveyIsRightUpToTheLineThatIsNamed, ASurveyIsRefusedWithNoLineIfItIsTooLongOrSilent};

/// An accepted survey says its site: the size by its one `S` line, which is above all `L` lines, and each link once by its `L` lines.
pub fn accepted_survey_says_its_site()
    ensures { AnAcceptedSurveySaysItsSite }
{}

/// A survey that is refused for a line is right up to the line that is named.
pub fn refused_survey_is_right_up_to_the_line()
    ensures { ARefusedSurveyIsRightUpToTheLineThatIsNamed }
{}

/// A survey is refused with no line named where it is too long, or says nothing in any line.
pub fn survey_refused_as_a_whole_is_too_long_or_silent()
    ensures { ASurveyIsRefusedWithNoLineIfItIsTooLongOrSilent }
{}
