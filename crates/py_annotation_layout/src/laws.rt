// The laws of annotations.
ghost use Rattle.py_annotation_layout.specs.Annotations.{annotation_tokens};
ghost use Rattle.py_annotation_layout.specs.Laws.{AnnotationsAreSound, AnnotationsAreBalanced};
ghost use Rattle.py_layout.specs.Small.{ReadsBack};

use py_printer::laws_of_printing;
use py_spelling::laws_of_spelling;

/// What any tokens are read as, as an annotation, is read from its own tokens too, in which no separator of statements, headers or parameters is
/// outside brackets. Where the tokens that were read are those of a text, so are its own, and their brackets close in order, whatever comes
/// after them.
pub fn laws_of_annotations()
    ensures back { ReadsBack annotation_tokens }
    ensures sound { AnnotationsAreSound }
    ensures balanced { AnnotationsAreBalanced }
{
    laws_of_spelling();
    laws_of_printing();
}
